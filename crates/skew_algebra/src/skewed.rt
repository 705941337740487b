//! A wave with a skew.

ghost use Rattle.std.specs.Prelude.{◌≡◌, ◌-◌, ◌<◌, ◌↔◌, IsTrue, IfOk, if◌then◌else◌, length, min as least};
ghost use Rattle.wave_core.specs.Slots.{IsPeriod};
ghost use Rattle.skew_algebra.specs.Permits.{Keeps, KeepsFlipped, KeepsMoved};
ghost use Rattle.skew_algebra.specs.Wave.{IsNormal, Wave, all_equal as equal, flipped, fold, folded, is_steady as steady, moved, normal, skewed};

use crate::scan::{all_equal, is_steady, joined};
use scald_base::{Delay, NoMemory};
use std::alloc::Global;
use std::cmp::min;
use std::marker::Model;
use wave_core::{Cell, CyclicWave, joined_from};

/// A wave, and the most ticks by which the whole of it may be late, in normal form: a steady wave
/// has one cell in all slots, a wave of one cell has no skew, and no skew reaches a period.
/// Contracts see its cells and its skew as one value. The fields are hidden and the normal form is
/// the invariant, so no other crate can make another, and clauses compare waves as they are. No
/// theorem needs the normal form.
#[derive(Drop)]
pub struct Skewed<W: CyclicWave> {
    wave: W,
    skew: u16,
}

impl<W: CyclicWave> Model for Skewed<W> {
    ghost Value = { Wave W.Item };

    ghost view = { λ s. skewed (W.cells s.wave) s.skew };

    ghost invariant = { λ s. IsNormal W.Item.kind (skewed (W.cells s.wave) s.skew) };
}

/// The skew that a wave of some change needs: none if all its cells are the same, since it is
/// the same however late it comes, and less than a period.
fn capped<W: CyclicWave>(wave: &W, skew: u16) -> u16
    ensures { result ≡ (if equal W.Item.kind
        (W.cells wave.now) then 0 else least skew (length (W.cells wave.now) - 1)) }
{
    if all_equal(wave) {
        0
    } else {
        min(skew, wave.period() - 1)
    }
}

impl<W: CyclicWave> Skewed<W> {
    /// The wave with this skew, in ticks, which are in normal form.
    pub fn new(wave: W, skew: u16) -> Skewed<W>
        requires { IsNormal W.Item.kind (skewed (W.cells wave) skew) }
        ensures { result ≡ skewed (W.cells wave) skew }
    {
        Skewed { wave, skew }
    }

    /// What holds of each such wave.
    pub fn known(&self)
        ensures normal { IsNormal W.Item.kind self.now }
        ensures sized { IsPeriod (length self.now.cells) }
    {
        let _ = &self.wave;
    }

    /// The wave without its skew.
    pub fn wave(&self) -> &W
        ensures { W.cells result.now ≡ self.now.cells }
    {
        &self.wave
    }

    /// The most ticks by which the whole may be late.
    pub fn skew(&self) -> u16
        ensures { result ≡ self.now.skew }
    {
        self.skew
    }

    /// How many slots there are.
    pub fn period(&self) -> u16
        ensures { result ≡ length self.now.cells }
    {
        self.wave.period()
    }

    /// The normal form of a wave that may be late by up to `skew` ticks.
    pub fn normal(alloc: Global, wave: W, skew: u16) -> Result<Skewed<W>, NoMemory>
        ensures wave { IfOk result (λ s. s ≡ normal W.Item.kind (skewed (W.cells wave) skew)) }
        ensures permits { IfOk result (λ s. Keeps W.Item.kind (skewed (W.cells wave) skew) s) }
    {
        let period = wave.period();
        if is_steady(&wave) {
            let steady = W::uniform(alloc, period, joined(&wave))?;
            return Ok(Skewed {
                wave: steady,
                skew: 0,
            });
        }
        let skew = capped(&wave, skew);
        Ok(Skewed { wave, skew })
    }

    /// The wave of a net that shows this one's, late by a delay within the bounds.
    pub fn moved(&self, alloc: Global, d: Delay) -> Result<Skewed<W>, NoMemory>
        ensures wave { IfOk result (λ s. s ≡ moved W.Item.kind self.now d) }
        ensures permits { IfOk result (λ s. KeepsMoved W.Item.kind self.now s d) }
    {
        let wave = self.wave.rotate(alloc, d.min)?;
        Skewed::normal(alloc, wave, self.skew + (d.max - d.min))
    }

    /// The wave without a skew: what each slot may hold, however late the whole comes.
    pub fn folded(&self, alloc: Global) -> Result<W, NoMemory>
        ensures wave { IfOk result (λ w. W.cells w ≡ folded W.Item.kind self.now) }
        ensures permits { IfOk result (λ w. Keeps W.Item.kind self.now (skewed (W.cells w) 0)) }
    {
        self.wave.fold(alloc, self.skew)
    }

    /// The wave of the complement.
    pub fn flipped(&self, alloc: Global) -> Result<Skewed<W>, NoMemory>
        ensures wave { IfOk result (λ s. s ≡ flipped W.Item.kind self.now) }
        ensures permits { IfOk result (λ s. KeepsFlipped W.Item.kind self.now s) }
    {
        let wave = self.wave.map(alloc, |cell| cell.flip())?;
        Ok(Skewed {
            wave,
            skew: self.skew,
        })
    }

    /// A copy of the wave.
    pub fn copy(&self, alloc: Global) -> Result<Skewed<W>, NoMemory>
        ensures { IfOk result (λ s. s ≡ self.now) }
    {
        let wave = self.wave.copy(alloc)?;
        Ok(Skewed {
            wave,
            skew: self.skew,
        })
    }

    /// Whether every slot is quiet.
    pub fn is_steady(&self) -> bool
        ensures { result ≡ steady W.Item.kind self.now.cells }
    {
        is_steady(&self.wave)
    }

    /// What a slot may hold, however late the whole comes.
    pub fn fold_at(&self, slot: u16) -> W::Item
        requires { slot < length self.now.cells }
        ensures { result ≡ fold W.Item.kind self.now slot }
    {
        let period = self.wave.period();
        let first = (slot + (period - self.skew)) % period;
        joined_from(&self.wave, first, self.skew + 1)
    }

    /// Whether the two have the same cells and the same skew.
    pub fn same(&self, other: &Skewed<W>) -> bool
        ensures { IsTrue result ↔ (self.now ≡ other.now) }
    {
        self.skew == other.skew && self.wave.equal(&other.wave)
    }
}
