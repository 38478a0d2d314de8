// Assertions that are proved once, and not at each place that makes them.
use std::fmt::Debug;
use std::process::Abort;

pub(crate) fn same<T: PartialEq + Debug + Drop>(rt: &impl Abort, got: T, want: T) {
    assert_eq!(rt; got, want);
}

// So at a row of a table.
pub(crate) fn same_at<A: Debug + Drop, T: PartialEq + Debug + Drop>(
    rt: &impl Abort,
    at: A,
    got: T,
    want: T,
) {
    assert_eq!(rt; got, want, "at {at:?}");
}
