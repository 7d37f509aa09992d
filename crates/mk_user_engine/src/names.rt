//! The variables that trades name.

ghost use Rattle.std.specs.Prelude.{◌≡◌, All};
ghost use Rattle.mk_user_engine.specs.Names.{is_named, value_in, CanDivide};

/// The most cells of a group, each an assignment of its variables.
pub(crate) const MAX_CELLS: u32 = 64;

/// The most variables of a group: each has at least two values.
pub(crate) const MAX_NAMES: usize = 6;

/// A variable with its number of values. From cell to cell its value changes after so many.
#[derive(Clone, Copy, Debug, Default)]
pub(crate) struct Named {
    pub(crate) variable: u32,
    pub(crate) values: u32,
    pub(crate) stride: u32,
}

/// Whether a variable is named.
pub(crate) fn is_named(names: &[Named], variable: u32) -> bool
    ensures { result ≡ is_named names.now variable }
{
    names.iter().any(|named| named.variable == variable)
}

/// The value that a cell gives a named variable; 0 for any other.
pub(crate) fn value_in(names: &[Named], cell: u32, variable: u32) -> u32
    requires { All CanDivide names.now }
    ensures { result ≡ value_in names.now cell variable }
{
    for named in names {
        if named.variable == variable {
            return cell / named.stride % named.values;
        }
    }
    0
}
