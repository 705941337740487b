//! One section: its version, its circuit, and whether it lists cases.

ghost use Rattle.std.specs.Prelude.{◌≡◌, ◌-◌, ◌^◌, ◌<◌, IfErr, IfOk, length};
ghost use Rattle.scald_base.specs.Time.{period};
ghost use Rattle.scald_base.specs.declared.refusal.Refusal.{Refusal};
ghost use Rattle.section_compose.specs.Drawn.{DrawsSection, IsSectionRefused};

use flat_circuit::Circuit;
use macro_expander::expanded;
use scald_base::Stop;
use std::alloc::Global;
use timing_analysis::read_text;

/// A section's circuit, and the version of the language that it is drawn in. A section that lists a
/// case breaks a rule, whatever the case says.
#[derive(Drop)]
pub struct Section {
    pub version: u8,
    pub circuit: Circuit,
    pub has_case: bool,
}

/// The section that a text of fewer than 4,294,967,295 bytes draws; or `Refused`, if it draws no
/// drawing, or that has no circuit; or `NoMemory`, if memory runs out. The place of a refusal
/// counts from the first byte of this text.
pub fn read_section(alloc: Global, text: &[u8]) -> Result<Section, Stop>
    requires { length text.now < 2 ^ 32 - 1 }
    ensures drawn { IfOk result (DrawsSection text.now) }
    ensures timed { IfOk result (λ section. 0 < period section.circuit.header) }
    ensures refused { IfErr result (λ stop.
        (r : Refusal) → stop ≡ Stop.Refused r → IsSectionRefused text.now r) }
{
    let drawing = match read_text(alloc, text) {
        Ok(drawing) => drawing,
        Err(stop) => return Err(stop),
    };
    let version = drawing.version;
    let has_case = !drawing.cases.is_empty();
    let expansion = match expanded(alloc, &drawing) {
        Ok(expansion) => expansion,
        Err(stop) => return Err(stop),
    };
    // The tree goes before the circuit is finished.
    drop(drawing);
    let circuit = match expansion.finish() {
        Ok(circuit) => circuit,
        Err(stop) => return Err(stop),
    };
    circuit.known();
    circuit.header().known();
    Ok(Section {
        version,
        circuit,
        has_case,
    })
}
