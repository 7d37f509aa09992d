//! The words of which the lines of the sample consist, each written at the end of a text.

ghost use Rattle.std.specs.Prelude.{◌≡◌, ◌++◌, decimal, OnOk};
ghost use Rattle.mk_make.specs.Lines.{comma_before};
ghost use Rattle.mk_make.specs.Sample.{variable_name, quoted_name, user_name, pair_of, value_at};

use itoa::Buffer;
use mk_net::NoMemory;

/// Writes a text as it is.
pub fn put_text(out: &mut Vec<u8>, text: &str) -> Result<(), NoMemory>
    ensures { OnOk result (out.new.items ≡ out.old.items ++ text.now) }
{
    out.extend_from_slice(text.as_bytes())?;
    Ok(())
}

/// Writes a number in decimals.
pub fn put_number(out: &mut Vec<u8>, number: u32) -> Result<(), NoMemory>
    ensures { OnOk result (out.new.items ≡ out.old.items ++ decimal number) }
{
    put_text(out, Buffer::new().format(number))
}

/// Writes what stands before item `number` of a list, counted from 1.
pub fn put_comma(out: &mut Vec<u8>, number: u32) -> Result<(), NoMemory>
    ensures { OnOk result (out.new.items ≡ out.old.items ++ comma_before number) }
{
    if number == 1 {
        Ok(())
    } else {
        put_text(out, ", ")
    }
}

/// Writes the name of a variable.
pub fn put_variable(out: &mut Vec<u8>, variable: u32) -> Result<(), NoMemory>
    ensures { OnOk result (out.new.items ≡ out.old.items ++ variable_name variable) }
{
    put_text(out, "v")?;
    put_number(out, variable)
}

/// Writes the name of a variable in quotes.
pub fn put_quoted(out: &mut Vec<u8>, variable: u32) -> Result<(), NoMemory>
    ensures { OnOk result (out.new.items ≡ out.old.items ++ quoted_name variable) }
{
    put_text(out, "\"")?;
    put_variable(out, variable)?;
    put_text(out, "\"")
}

/// Writes the name of a user.
pub fn put_user(out: &mut Vec<u8>, user: u32) -> Result<(), NoMemory>
    ensures { OnOk result (out.new.items ≡ out.old.items ++ user_name user) }
{
    put_text(out, "u")?;
    put_number(out, user)
}

/// Writes a variable and one of its values.
pub fn put_pair(out: &mut Vec<u8>, variable: u32, value: &str) -> Result<(), NoMemory>
    ensures { OnOk result (out.new.items ≡ out.old.items ++ pair_of variable value.now) }
{
    put_variable(out, variable)?;
    put_text(out, "=")?;
    put_text(out, value)
}

/// The value that stands at an odd number, or at an even one.
#[tactic(auto, unfolding(crate::specs::Sample::value_at))]
pub fn value_at(number: u32) -> &'static str
    ensures { result.now ≡ value_at number }
{
    if number % 2 == 1 { "yes" } else { "no" }
}
