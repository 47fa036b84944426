// Why an expression has no value: rows of document 01's table, each by its name.
#[derive(Clone, Copy, PartialEq, Eq)]
pub enum Fault {
    NoExpression, // 13, of the bytes of a line that hold no expression
    OutOfRange, // 16
    ZeroDivisor, // 18
}
