//! Examples of rules, one or more for each tag, and where the rule has a condition a goal at which
//! that alone fails. Each function does nothing; its
//! contract is the result.

ghost use Rattle.sf_rules.specs.Checked.Examples.{AssignedVariablesHaveTheTerm, DecidedBranchesAreLeft, DisposedCellsGo, EmptyListsGo, ListsFromNilAreEmpty, LookedUpFieldsAreKnown, MutatedFieldsHaveTheTerm, NewCellsAreFresh, NoCellIsAtNil, NumbersDontRunOut, SplitReplacesTheGreater, UnrolledPartsHaveACell};
ghost use Rattle.sf_rules.specs.Checked.ExamplesOfBodies.{BodiesEndWithTheInvariant, CallsLeaveThreeItems, ForksLeaveFiveItems, GivenIsGone, LoopsBeginWithTheInvariant, LoopsGiveNoTerms, LoopsGoOnceAround, NothingIsLeftAtTheEnd, RegionsBeginWithTheInvariant, RegionsEndWithTheInvariant, ReturnsShowThePostcondition};
ghost use Rattle.sf_rules.specs.Checked.ExamplesOfDoubles.{AddedDoublesNameTheirEnds, DoublesHaveALastCell, DoublesThatAreEmptyHaveOneEnd, EmptyDoublesGo, EmptyDoublesNeedNothing, ExactDoublesAreHandedOver, HeadGoesOnBothWays, JoinGoesOnBothWays, UnrolledDoublesHaveACell};
ghost use Rattle.sf_rules.specs.Checked.ExamplesOfInit.{HoldersBeginWithThePrecondition, InitBeginsWithNil, InitShowsEachInvariant};
ghost use Rattle.sf_rules.specs.Checked.ExamplesOfConjuncts.{AddedCellsNameTheirFields, AddedTestsAreKnown, BoundExistentialsHaveTheTerm, ChoicesAreNotAdded, ChosenBranchesTakeTheirPlace, EmptyPartsNeedNothing, ExactPartsAreHandedOver, HeadGoesOn, JoinGoesOn, KnownTermsAreApart, NodeGoesOn, OneTermIsTheSame, WantedCellsAreHandedOver};

/// A state with a cell at nil is absurd.
#[tactic(auto, using(crate::proofs::SmallRows::no_cell_is_at_nil))]
pub fn no_cell_is_at_nil()
    ensures { NoCellIsAtNil }
{}

/// A list from a term to itself goes.
#[tactic(auto, using(crate::proofs::SmallRows::empty_lists_go))]
pub fn empty_lists_go()
    ensures { EmptyListsGo }
{}

/// A list from nil ends at nil.
#[tactic(auto, using(crate::proofs::SmallRows::lists_from_nil_are_empty))]
pub fn lists_from_nil_are_empty()
    ensures { ListsFromNilAreEmpty }
{}

/// Of two symbols that are split the greater goes, or they differ.
#[tactic(auto, using(crate::proofs::SmallRows::split_replaces_the_greater))]
pub fn split_replaces_the_greater()
    ensures { SplitReplacesTheGreater }
{}

/// A list or tree that isn't empty is a cell, and what its links begin.
#[tactic(auto, using(crate::proofs::SmallRows::unrolled_parts_have_a_cell))]
pub fn unrolled_parts_have_a_cell()
    ensures { UnrolledPartsHaveACell }
{}

/// A variable that is assigned has the term of the other.
#[tactic(auto, using(crate::proofs::SmallRows::assigned_variables_have_the_term))]
pub fn assigned_variables_have_the_term()
    ensures { AssignedVariablesHaveTheTerm }
{}

/// A field that is looked up is known from then on.
#[tactic(auto, using(crate::proofs::SmallRows::looked_up_fields_are_known))]
pub fn looked_up_fields_are_known()
    ensures { LookedUpFieldsAreKnown }
{}

/// A field that is written has the term.
#[tactic(auto, using(crate::proofs::SmallRows::mutated_fields_have_the_term))]
pub fn mutated_fields_have_the_term()
    ensures { MutatedFieldsHaveTheTerm }
{}

/// A new cell is at a fresh symbol.
#[tactic(auto, using(crate::proofs::SmallRows::new_cells_are_fresh))]
pub fn new_cells_are_fresh()
    ensures { NewCellsAreFresh }
{}

/// A cell that is disposed of goes.
#[tactic(auto, using(crate::proofs::SmallRows::disposed_cells_go))]
pub fn disposed_cells_go()
    ensures { DisposedCellsGo }
{}

/// Of a choice the branch is left that its test decides.
#[tactic(auto, using(crate::proofs::SmallRows::decided_branches_are_left))]
pub fn decided_branches_are_left()
    ensures { DecidedBranchesAreLeft }
{}

/// A call leaves a precondition to show, variables to set, and a postcondition to assume.
#[tactic(auto, using(crate::proofs::SmallRows::calls_leave_three_items))]
pub fn calls_leave_three_items()
    ensures { CallsLeaveThreeItems }
{}

/// Two parallel calls leave five things to do, those of each its own.
#[tactic(auto, using(crate::proofs::SmallRows::forks_leave_five_items))]
pub fn forks_leave_five_items()
    ensures { ForksLeaveFiveItems }
{}

/// What was handed over is gone, and variables have other terms, or none.
#[tactic(auto, using(crate::proofs::SmallRows::given_is_gone))]
pub fn given_is_gone()
    ensures { GivenIsGone }
{}

/// A region begins with the resource's variables, its invariant and the condition.
#[tactic(auto, using(crate::proofs::SmallRows::regions_begin_with_the_invariant))]
pub fn regions_begin_with_the_invariant()
    ensures { RegionsBeginWithTheInvariant }
{}

/// A region ends by showing the invariant and giving up the variables.
#[tactic(auto, using(crate::proofs::SmallRows::regions_end_with_the_invariant))]
pub fn regions_end_with_the_invariant()
    ensures { RegionsEndWithTheInvariant }
{}

/// A loop begins by showing its invariant.
#[tactic(auto, using(crate::proofs::SmallRows::loops_begin_with_the_invariant))]
pub fn loops_begin_with_the_invariant()
    ensures { LoopsBeginWithTheInvariant }
{}

/// A loop leaves its body once, and what comes after it.
#[tactic(auto, using(crate::proofs::SmallRows::loops_go_once_around))]
pub fn loops_go_once_around()
    ensures { LoopsGoOnceAround }
{}

/// A loop gives no term to what only a region inside of it reaches.
#[tactic(auto, using(crate::proofs::SmallRows::loops_give_no_terms))]
pub fn loops_give_no_terms()
    ensures { LoopsGiveNoTerms }
{}

/// A loop's body ends by showing the invariant, and nothing else.
#[tactic(auto, using(crate::proofs::SmallRows::bodies_end_with_the_invariant))]
pub fn bodies_end_with_the_invariant()
    ensures { BodiesEndWithTheInvariant }
{}

/// A procedure ends by showing its postcondition, and nothing else.
#[tactic(auto, using(crate::proofs::SmallRows::returns_show_the_postcondition))]
pub fn returns_show_the_postcondition()
    ensures { ReturnsShowThePostcondition }
{}

/// The procedure that sets the resources up begins with their variables at nil and nothing assumed.
#[tactic(auto, using(crate::proofs::SmallRows::init_begins_with_nil))]
pub fn init_begins_with_nil()
    ensures { InitBeginsWithNil }
{}

/// A procedure that holds a resource begins with a symbol for its variable and the precondition.
#[tactic(auto, using(crate::proofs::SmallRows::holders_begin_with_the_precondition))]
pub fn holders_begin_with_the_precondition()
    ensures { HoldersBeginWithThePrecondition }
{}

/// The procedure that sets the resources up ends by showing the invariant of each, and nothing else.
#[tactic(auto, using(crate::proofs::SmallRows::init_shows_each_invariant))]
pub fn init_shows_each_invariant()
    ensures { InitShowsEachInvariant }
{}

/// At the end of all no part of the heap is left.
#[tactic(auto, using(crate::proofs::SmallRows::nothing_is_left_at_the_end))]
pub fn nothing_is_left_at_the_end()
    ensures { NothingIsLeftAtTheEnd }
{}

/// A cell that is assumed gives its existential a fresh symbol.
#[tactic(auto, using(crate::proofs::SmallRows::added_cells_name_their_fields))]
pub fn added_cells_name_their_fields()
    ensures { AddedCellsNameTheirFields }
{}

/// Trees, equalities and inequalities that are assumed are known.
#[tactic(auto, using(crate::proofs::SmallRows::added_tests_are_known))]
pub fn added_tests_are_known()
    ensures { AddedTestsAreKnown }
{}

/// Among conjuncts a branch takes the place of its choice.
#[tactic(auto, using(crate::proofs::SmallRows::chosen_branches_take_their_place))]
pub fn chosen_branches_take_their_place()
    ensures { ChosenBranchesTakeTheirPlace }
{}

/// An existential that is bound has the other side's term.
#[tactic(auto, using(crate::proofs::SmallRows::bound_existentials_have_the_term))]
pub fn bound_existentials_have_the_term()
    ensures { BoundExistentialsHaveTheTerm }
{}

/// A term is the same as itself.
#[tactic(auto, using(crate::proofs::SmallRows::one_term_is_the_same))]
pub fn one_term_is_the_same()
    ensures { OneTermIsTheSame }
{}

/// Terms that are known to differ do.
#[tactic(auto, using(crate::proofs::SmallRows::known_terms_are_apart))]
pub fn known_terms_are_apart()
    ensures { KnownTermsAreApart }
{}

/// A wanted cell is handed over where its fields fit.
#[tactic(auto, using(crate::proofs::SmallRows::wanted_cells_are_handed_over))]
pub fn wanted_cells_are_handed_over()
    ensures { WantedCellsAreHandedOver }
{}

/// An empty list and the tree of nil need no heap.
#[tactic(auto, using(crate::proofs::SmallRows::empty_parts_need_nothing))]
pub fn empty_parts_need_nothing()
    ensures { EmptyPartsNeedNothing }
{}

/// A list or tree that is wanted just so is handed over.
#[tactic(auto, using(crate::proofs::SmallRows::exact_parts_are_handed_over))]
pub fn exact_parts_are_handed_over()
    ensures { ExactPartsAreHandedOver }
{}

/// A wanted list begins with its first cell, and goes on at the link.
#[tactic(auto, using(crate::proofs::SmallRows::head_goes_on))]
pub fn head_goes_on()
    ensures { HeadGoesOn }
{}

/// A wanted list up to nil begins with a segment, and goes on at its end.
#[tactic(auto, using(crate::proofs::SmallRows::join_goes_on))]
pub fn join_goes_on()
    ensures { JoinGoesOn }
{}

/// A wanted tree begins with its cell, and goes on at both links.
#[tactic(auto, using(crate::proofs::SmallRows::node_goes_on))]
pub fn node_goes_on()
    ensures { NodeGoesOn }
{}

/// A doubly linked segment that ends where it begins goes, if its last cell is what stands before it.
#[tactic(auto, using(crate::proofs::SmallRows::empty_doubles_go))]
pub fn empty_doubles_go()
    ensures { EmptyDoublesGo }
{}

/// A doubly linked segment from nil ends at nil, and where one ends where it begins its last cell is
/// what stands before it.
#[tactic(auto, using(crate::proofs::SmallRows::doubles_that_are_empty_have_one_end))]
pub fn doubles_that_are_empty_have_one_end()
    ensures { DoublesThatAreEmptyHaveOneEnd }
{}

/// A doubly linked segment that isn't empty is a cell, and what its link begins.
#[tactic(auto, using(crate::proofs::SmallRows::unrolled_doubles_have_a_cell))]
pub fn unrolled_doubles_have_a_cell()
    ensures { UnrolledDoublesHaveACell }
{}

/// So it is what comes before its last cell, and that cell.
#[tactic(auto, using(crate::proofs::SmallRows::doubles_have_a_last_cell))]
pub fn doubles_have_a_last_cell()
    ensures { DoublesHaveALastCell }
{}

/// A doubly linked segment that is assumed gives its existentials fresh symbols.
#[tactic(auto, using(crate::proofs::SmallRows::added_doubles_name_their_ends))]
pub fn added_doubles_name_their_ends()
    ensures { AddedDoublesNameTheirEnds }
{}

/// An empty doubly linked segment needs no heap.
#[tactic(auto, using(crate::proofs::SmallRows::empty_doubles_need_nothing))]
pub fn empty_doubles_need_nothing()
    ensures { EmptyDoublesNeedNothing }
{}

/// A doubly linked segment that is wanted just so is handed over.
#[tactic(auto, using(crate::proofs::SmallRows::exact_doubles_are_handed_over))]
pub fn exact_doubles_are_handed_over()
    ensures { ExactDoublesAreHandedOver }
{}

/// A wanted doubly linked segment begins with its first cell, and goes on at the link.
#[tactic(auto, using(crate::proofs::SmallRows::head_goes_on_both_ways))]
pub fn head_goes_on_both_ways()
    ensures { HeadGoesOnBothWays }
{}

/// It begins with a segment, and goes on at its end.
#[tactic(auto, using(crate::proofs::SmallRows::join_goes_on_both_ways))]
pub fn join_goes_on_both_ways()
    ensures { JoinGoesOnBothWays }
{}

/// A choice is no conjunct to add.
#[tactic(auto, using(crate::proofs::SmallRows::choices_are_not_added))]
pub fn choices_are_not_added()
    ensures { ChoicesAreNotAdded }
{}

/// No rule applies where numbers could run out.
#[tactic(auto, using(crate::proofs::SmallRows::numbers_dont_run_out))]
pub fn numbers_dont_run_out()
    ensures { NumbersDontRunOut }
{}
