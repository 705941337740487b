//! The drawing, line by line.
//!
//! The one error of each function is that memory ran out, and then a part of its lines may stand at
//! the end of the bytes.

ghost use Rattle.std.specs.Prelude.{◌≡◌, ◌≤◌, ◌++◌, IfOk, OnOk};
ghost use Rattle.design_gen.specs.Datapath.{assertion, change_line, checker_line, datapath, head, register_line, section};

use crate::piece::{Piece, add_line};
use scald_base::{Bytes, NoMemory};
use std::alloc::Global;

/// The period of 8 units of 50 ticks, the wires' delay, and where the drawing begins.
#[tactic(auto, unfolding(crate::specs::Datapath::head))]
fn add_head(out: &mut Bytes) -> Result<(), NoMemory>
    ensures { OnOk result (out.new ≡ out.old ++ head) }
{
    out.extend(b"SCALD 1;\nCLOCK 8 x 50;\nWIRE 0:2;\nDRAWING BENCH;\n")
}

/// What the name of a section's input asserts: that of the first section, which nothing drives, is
/// stable from unit 4 to unit 3 of the next period.
#[tactic(auto, unfolding(crate::specs::Datapath::assertion))]
fn assertion(i: u16) -> &'static [u8]
    ensures { result.now ≡ assertion i }
{
    if i == 1 { b" .S4-3" } else { b"" }
}

/// The logic of section `i`, 20 to 60 ticks from the register before it.
#[tactic(auto, unfolding(crate::specs::Datapath::change_line))]
fn add_change(out: &mut Bytes, i: u16) -> Result<(), NoMemory>
    requires { 1 ≤ i }
    ensures { OnOk result (out.new ≡ out.old ++ change_line i) }
{
    add_line(
        out,
        &[
            Piece::Text(b"g"),
            Piece::Number(i),
            Piece::Text(b" : CHG [20:60] (\"Q"),
            Piece::Number(i - 1),
            Piece::Text(assertion(i)),
            Piece::Text(b"\"<0:7>) -> (\"D"),
            Piece::Number(i),
            Piece::Text(b"\"<0:7>);"),
        ],
    )
}

/// The checker of section `i`, at its register's data.
#[tactic(auto, unfolding(crate::specs::Datapath::checker_line))]
fn add_checker(out: &mut Bytes, i: u16) -> Result<(), NoMemory>
    ensures { OnOk result (out.new ≡ out.old ++ checker_line i) }
{
    add_line(
        out,
        &[
            Piece::Text(b"c"),
            Piece::Number(i),
            Piece::Text(b" : SETUP_HOLD_CHK {SETUP=20, HOLD=5} (\"CK .P2-3\", \"D"),
            Piece::Number(i),
            Piece::Text(b"\"<0:7>);"),
        ],
    )
}

/// The register of section `i`.
#[tactic(auto, unfolding(crate::specs::Datapath::register_line))]
fn add_register(out: &mut Bytes, i: u16) -> Result<(), NoMemory>
    ensures { OnOk result (out.new ≡ out.old ++ register_line i) }
{
    add_line(
        out,
        &[
            Piece::Text(b"r"),
            Piece::Number(i),
            Piece::Text(b" : REG [5:10] (\"CK .P2-3\", \"D"),
            Piece::Number(i),
            Piece::Text(b"\"<0:7>) -> (\"Q"),
            Piece::Number(i),
            Piece::Text(b"\"<0:7>);"),
        ],
    )
}

/// The logic, the checker and the register of section `i`.
fn add_section(out: &mut Bytes, i: u16) -> Result<(), NoMemory>
    requires { 1 ≤ i }
    ensures { OnOk result (out.new ≡ out.old ++ section i) }
{
    add_change(out, i)?;
    add_checker(out, i)?;
    add_register(out, i)
}

/// The drawing of `n` registers of 8 bits in a chain, with logic before each and a checker at its
/// data: 224 bytes for one register, and 35,393 for 200. The one error is that memory ran out.
#[tactic(auto, unfolding(crate::specs::Datapath::datapath))]
pub fn generate(alloc: Global, n: u16) -> Result<Bytes, NoMemory>
    ensures { IfOk result (λ text. text ≡ datapath n) }
{
    let mut out = Bytes::new(alloc);
    add_head(&mut out)?;
    for j in 0..n {
        add_section(&mut out, j + 1)?;
    }
    out.extend(b"END;\n")?;
    Ok(out)
}
