ghost use Rattle.text_laws.specs.OneMeaning.{ConditionsAreOne, GraphsAreOne, TemplatesAreOne, PeopleAreOne};

/// A written condition stands for one condition with places of leaves.
pub fn conditions_are_one()
    ensures { ConditionsAreOne }
{}

/// A process of a text means one graph, with all blocks inside it.
pub fn graphs_are_one()
    ensures { GraphsAreOne }
{}

/// A text means one list of templates behind a library.
pub fn templates_are_one()
    ensures { TemplatesAreOne }
{}

/// A text declares one list of people.
pub fn people_are_one()
    ensures { PeopleAreOne }
{}
