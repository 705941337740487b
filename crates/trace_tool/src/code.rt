//! The codes of variables.

ghost use Rattle.std.specs.Prelude.{◌≡◌, ◌++◌, OnOk};
ghost use Rattle.trace_tool.specs.Variable.{code_digit, code_of, later_code};

use scald_base::{Bytes, NoMemory};

/// How many digits there are.
const DIGITS: u32 = 94;

/// The digit of a number.
fn digit(number: u32) -> u8
    ensures { result ≡ code_digit number }
{
    33 + (number % DIGITS) as u8
}

/// The digits after the first.
fn add_later(out: &mut Bytes, number: u32) -> Result<(), NoMemory>
    ensures { OnOk result (out.new ≡ out.old ++ later_code number) }
{
    out.push(digit(number))?;
    if number >= DIGITS {
        out.push(digit(number / DIGITS - 1))?;
    }
    Ok(())
}

/// The code of a variable, by its number.
#[tactic(auto, unfolding(crate::specs::Variable::code_of))]
pub fn add_code(out: &mut Bytes, number: u32) -> Result<(), NoMemory>
    ensures { OnOk result (out.new ≡ out.old ++ code_of number) }
{
    out.push(digit(number))?;
    if number >= DIGITS {
        add_later(out, number / DIGITS - 1)?;
    }
    Ok(())
}
