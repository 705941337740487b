//! Cells that say no more than whether a net may change.

ghost use Rattle.std.specs.Prelude.{◌≡◌, Bool, true, false, not, if◌then◌else◌, refl};
ghost use Rattle.std.proofs.Common.{sym};
ghost use Rattle.std.proofs.lemmas.Bool.{true≢false};
ghost use Rattle.unit_tests.specs.declared.cells.Slot.TheVariants.{Still, Moving};

use crate::rows::{expect_eq, expect_of};
use std::process::Abort;
use wave_core::{Cell, CyclicWave};

/// Whether a net may change in a slot.
#[derive(Clone, Copy, PartialEq, Eq, Debug)]
pub enum Slot {
    Still,
    Moving,
}

impl Cell for Slot {
    ghost kind = { record {
      has = elim [ Still ↦ λ before after. if before then after else not after | Moving ↦ λ before after. true ];
      join = elim [ Still ↦ λ w. w | Moving ↦ λ w. Moving ];
      flip = λ v. v;
      quiet = elim [ Still ↦ true | Moving ↦ false ];
      same = elim [ Still ↦ elim [ Still ↦ true | Moving ↦ false ] | Moving ↦ elim [ Still ↦ false | Moving ↦ true ] ];
      any = Still;
    } };

    ghost laws = { record {
      same_is = elim [ Still ↦ elim [ Still ↦ λ h. refl | Moving ↦ λ h. absurd (true≢false (sym h)) ] | Moving ↦ elim [ Still ↦ λ h. absurd (true≢false (sym h)) | Moving ↦ λ h. refl ] ];
      same_self = elim [ Still ↦ refl | Moving ↦ refl ];
      join_above_left = elim [ Still ↦ elim [ Still ↦ refl | Moving ↦ refl ] | Moving ↦ λ w. refl ];
      join_above_right = elim [ Still ↦ elim [ Still ↦ refl | Moving ↦ refl ] | Moving ↦ λ w. refl ];
      join_least = elim [ Still ↦ λ w above h h'. h' | Moving ↦ λ w above h h'. h ];
      join_regroups = elim [ Still ↦ λ v w. refl | Moving ↦ λ v w. refl ];
      join_turns = elim [ Still ↦ elim [ Still ↦ refl | Moving ↦ refl ] | Moving ↦ elim [ Still ↦ refl | Moving ↦ refl ] ];
      join_absorbs = elim [ Still ↦ refl | Moving ↦ refl ];
      join_has_left = elim [ Still ↦ elim [ Still ↦ λ before after h. h | Moving ↦ λ before after h. refl ] | Moving ↦ λ w before after h. refl ];
      join_has_right = elim [ Still ↦ λ w before after h. h | Moving ↦ λ w before after h. refl ];
      flip_returns = λ v. refl;
      flip_joins = λ v w. refl;
      flip_quiet = λ v. refl;
      flip_has = elim [ Still ↦ elim [ true ↦ elim [ true ↦ refl | false ↦ refl ] | false ↦ elim [ true ↦ refl | false ↦ refl ] ] | Moving ↦ λ before after. refl ];
      quiet_rise = elim [ Still ↦ λ h. refl | Moving ↦ λ h. sym h ];
      quiet_fall = elim [ Still ↦ λ h. refl | Moving ↦ λ h. sym h ];
    } };

    ghost equal = { elim [ Still ↦ elim [ Still ↦ refl | Moving ↦ refl ] | Moving ↦ elim [ Still ↦ refl | Moving ↦ refl ] ] };

    fn join(self, other: Slot) -> Slot {
        match self {
            Slot::Still => other,
            Slot::Moving => Slot::Moving,
        }
    }

    fn flip(self) -> Slot {
        self
    }

    fn quiet(self) -> bool {
        self == Slot::Still
    }
}

/// A slot in which nothing moves.
pub const S: Slot = Slot::Still;

/// A slot in which something moves.
pub const M: Slot = Slot::Moving;

/// Looks at each slot of a wave.
pub fn expect_slots<W: CyclicWave<Item = Slot>>(
    rt: &impl Abort,
    name: &str,
    wave: &W,
    want: &[Slot],
) {
    expect_eq(rt, name, &(wave.period() as usize), &want.len());
    for slot in 0..wave.period() {
        let wanted = want.get(slot as usize).copied();
        expect_of(rt, name, &slot, &Some(wave.at(slot)), &wanted);
    }
}
