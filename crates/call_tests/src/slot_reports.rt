//! Reports by waves of slots: the program has waves of runs.

use crate::rows::{expect_eq, expect_text};
use listing::Mode;
use scald_base::Bytes;
use scald_tool::{Outcome, verify_text};
use std::process::Abort;
use step_values::Value;
use wave_core::SlotWave;

/// Two pins that move.
const MOVERS: &[u8] = br#"SCALD 1;
CLOCK 8 x 50;
DRAWING ROW;
b1 : BUF [10:30] ("CK .P2-3") -> ("X");
b2 : BUF [10:30] ("CK") -> ("Y");
a1 : AND [0:0] ("X", "Y") -> ("Z");
END;
"#;

const MOVERS_REPORT: &str = "SCALD 1 PERIOD 400
NETS 4 INSTANCES 3 CHECKS 0
CASE 0 BASE 2 ROUNDS 0 T 93
WAVE CK<0> SKEW 0 0:100 R:1 1:49 F:1 0:249
WAVE X<0> SKEW 20 0:110 R:1 1:49 F:1 0:239
WAVE Y<0> SKEW 20 0:110 R:1 1:49 F:1 0:239
WAVE Z<0> SKEW 0 0:110 R:21 1:29 F:21 0:219
CLEAN
";

/// A slice of an arithmetic unit, 36 bits wide, whose output is fed back.
const UNIT: &[u8] = br#"SCALD 1;
CLOCK 8 x 50;
WIRE 0:20;
MACRO ALUSLICE {SIZE=36} ("CK", "EN", "A"<0:SIZE-1>, "B"<0:SIZE-1>, "F"<0:3>) -> ("Q"<0:SIZE-1>);
gate : AND [4:8] ("CK" !H, "EN") -> ("GCK");
alu : CHG [60:120] ("A", "B", "F") -> ("SUM"<0:SIZE-1>);
chk : SETUP_HOLD_CHK {SETUP=20, HOLD=10} ("GCK", "SUM"<0:SIZE-1>);
pw : MIN_PULSE_CHK {HIGH=40, LOW=40} ("GCK");
reg : REG [10:25] ("GCK", "SUM"<0:SIZE-1>) -> ("Q");
END;
DRAWING ALU;
u1 : ALUSLICE ("MAIN CLK .P5-6", "ENABLE .S4-7", "A .S7-6"<0:35>,
  "ACC"<0:35>, "FN .S7-6"<0:3>) -> ("ACC"<0:35>);
END;
"#;

const UNIT_REPORT: &str = "SCALD 1 PERIOD 400
NETS 115 INSTANCES 73 CHECKS 37
CASE 0 BASE 3 ROUNDS 0 T 564
CLEAN
";

/// The text has no fault, and this report.
fn is_reported(rt: &(impl Abort + AllocGlobal), name: &str, text: &[u8], mode: Mode, report: &str) {
    assert!(rt; text.len() < 1_000_000);
    let mut out = Bytes::new(rt.alloc());
    let outcome = verify_text::<SlotWave<Value>>(rt.alloc(), text, mode, None, &mut out);
    expect_eq(rt, name, &outcome, &Outcome::Clean);
    expect_text(rt, name, out.as_slice(), report);
}

#[test]
fn waves_of_slots(rt: HostRuntime) {
    is_reported(&rt, "two pins that move", MOVERS, Mode::Full, MOVERS_REPORT);
    is_reported(&rt, "a unit", UNIT, Mode::Faults, UNIT_REPORT);
}
