// The number by which the line of a row that cannot be read prints its refusal.
pub const BAD_ROW: usize = 14;
