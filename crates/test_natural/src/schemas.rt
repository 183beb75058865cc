// The schemas of the worked queries.
/// An organisation whose departments and employees have a key.
pub const KEYED: &[u8] = b"table departments (name: text, key (name));
table employees (dept: text, name: text, salary: int, key (name));";

/// One in which no table has a key.
pub const KEYLESS: &[u8] = b"table departments (name: text);
table employees (dept: text, name: text, salary: int);
table tasks (employee: text, task: text);";

/// One in which the departments alone have a key.
pub const HALF: &[u8] = b"table departments (name: text, key (name));
table employees (dept: text, name: text, salary: int);
table tasks (employee: text, task: text);";

/// Parents of one inner bag in two tables, with keys of other types.
pub const PARENTS: &[u8] = b"table a (i: int, key (i));
table b (p: bool, s: text, v: int, key (s, p)); table c (i: int, w: text);";

/// A key of two columns in another order than the columns, and one that is no first column.
pub const ORDERS: &[u8] = b"table p (a: int, b: text, key (b, a));
table q (c: bool, d: int, key (d)); table r (e: int, key (e));";

/// The same, where the last table has no key.
pub const LAST_KEYLESS: &[u8] = b"table p (a: int, b: text, key (b, a));
table q (c: bool, d: int, key (d)); table r (e: int);";

/// A key of two columns of one type, in another order than the columns.
pub const TWO_TEXTS: &[u8] = b"table t (x: text, y: text, z: int, key (y, x)); table u (of: text);";
