// Small facts which show that the definitions mean what they say. Read these first.
ghost use Rattle.theory.specs.Sanity.{TestsAreEquality, OrderStrictTotal, NumberByNumber, SortingKeeps, SortingOrders, LeastIsLeast, RowWritesTriple, EmptyForm, RepeatForm, BoundsInclusive};

// The tests of rows and of triples are equality.
pub fn tests_are_equality()
    ensures { TestsAreEquality }
{}

// The order on rows is strict and total.
pub fn order_strict_total()
    ensures { OrderStrictTotal }
{}

// Rows are ordered number by number, the smaller number first.
pub fn number_by_number()
    ensures { NumberByNumber }
{}

// Sorting loses no row and adds none.
pub fn sorting_keeps()
    ensures { SortingKeeps }
{}

// Sorted rows are in order.
pub fn sorting_orders()
    ensures { SortingOrders }
{}

// The least of some rows is one of them, and none comes before it.
pub fn least_is_least()
    ensures { LeastIsLeast }
{}

// The row of a triple writes it down.
pub fn row_writes_triple()
    ensures { RowWritesTriple }
{}

// The form of the empty graph is 0.
pub fn empty_form()
    ensures { EmptyForm }
{}

// A graph and its copy with a triple repeated have one form.
pub fn repeat_form()
    ensures { RepeatForm }
{}

// The bounds on different triples and on leaves are themselves allowed.
pub fn bounds_inclusive()
    ensures { BoundsInclusive }
{}
