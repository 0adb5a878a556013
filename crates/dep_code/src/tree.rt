use cu_base::Guid;

/// What a dependency section asks: a truth value of the versions of devices. Of two operands the
/// first is the left one.
#[derive(Drop)]
pub enum DepTree {
    True,
    False,
    Not(Box<DepTree>),
    And(Box<DepTree>, Box<DepTree>),
    Or(Box<DepTree>, Box<DepTree>),
    Compare(CompareKind, Compared, Compared),
}

/// How two numbers are compared.
#[derive(Clone, Copy, Debug, PartialEq, Eq)]
pub enum CompareKind {
    Eq,
    Gt,
    Gte,
    Lt,
    Lte,
}

/// An operand of a comparison: a version, or the version of the device of this GUID.
#[derive(Clone, Copy, Debug, PartialEq, Eq)]
pub enum Compared {
    Version(u32),
    Guid(Guid),
}
