//! How wide and how large what is computed in a tree can be.
ghost use Rattle.mk_sums.specs.Laws.{AreLawful, SumsBound, SmallCase, GradesAdd, ReadGradesAdd};

/// No sum over some of the cliques and variables exceeds the sum, over all states, of the product of all full values.
pub fn sums_bound()
    ensures { SumsBound }
{}

/// The grade that a message may have is made of its sender's, and of the grades of the messages that it is made of.
pub fn grades_add()
    ensures { GradesAdd }
{}

/// Sums, and minima of the values that are present, are lawful.
pub fn are_lawful()
    ensures { AreLawful }
{}

/// The grades of the messages to a clique add up to that of the whole tree.
pub fn read_grades_add()
    ensures { ReadGradesAdd }
{}

/// No sum in a tree exceeds the sum, over the list of all states, of the product of all factors.
pub fn small_case()
    ensures { SmallCase }
{}
