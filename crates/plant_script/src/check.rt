//! The command `check`: a plant file and a script, and whether both are valid.

ghost use Rattle.std.specs.Prelude.{◌≡◌, ◌≤◌, ◌++◌, ◌∷◌, [], codes, length, true, IfOk, IfErr};
ghost use Rattle.std.specs.Fmt.{decimal};
ghost use Rattle.std.specs.Str.{is_utf8};
ghost use Rattle.std.specs.String.{string_bytes};
ghost use Rattle.toml.specs.Parse.{parse_document};
ghost use Rattle.lists.specs.Results.{Gives};
ghost use Rattle.slice_table.specs.Tree.{plant_cause};
ghost use Rattle.slice_table.specs.ReadPlant.{text_plant};
ghost use Rattle.line_service.specs.script.Input.{before_bar, plant_text};
ghost use Rattle.line_service.specs.script.Script.{steps_of};
ghost use Rattle.plant_script.specs.Check.{fault_text, answer_to_steps, check_of};
ghost use Rattle.plant_script.specs.One.{is_readable};
ghost use Rattle.plant_script.specs.declared.input.AnswerFault.TheVariants.{Memory};
ghost use Rattle.plant_script.specs.Statuses.{status_code};

use crate::answer::Answer;
use crate::input::AnswerFault;
use crate::status::Status;
use line_service::{LineFault, before_bar, plant_text, script_text, steps_of};
use plant::{Plant, Routes};
use slice_table::{PlantFault, read_plant};
use std::alloc::{AllocError, Global};

/// Returns the line of an invalid plant, with the fault's number and what it names.
#[tactic(auto, unfolding(crate::specs::Check::fault_text))]
pub fn plant_line(alloc: Global, fault: PlantFault) -> Result<String, AllocError>
    ensures { IfOk result (λ line. string_bytes line ≡ codes "fault: plant " ++ fault_text fault) }
{
    match fault {
        PlantFault::NotToml => String::from_str(alloc, "fault: plant 1\n"),
        PlantFault::Missing { key } => format!(in alloc; "fault: plant 2 {key}\n"),
        PlantFault::BadValue { key } => format!(in alloc; "fault: plant 3 {key}\n"),
        PlantFault::SlicesMeet { a, b } => format!(in alloc; "fault: plant 4 {a} {b}\n"),
        PlantFault::SidsMeet { a, b } => format!(in alloc; "fault: plant 5 {a} {b}\n"),
        PlantFault::SfidsMeet { a, b } => format!(in alloc; "fault: plant 6 {a} {b}\n"),
        PlantFault::ModemTwice { modem } => format!(in alloc; "fault: plant 7 {modem}\n"),
        PlantFault::TooManyElements { total } => format!(in alloc; "fault: plant 8 {total}\n"),
        PlantFault::BudgetOverSlice { operator } => format!(in alloc;
            "fault: plant 9 {operator}\n"
        ),
        PlantFault::ProvisionedOver { operator } => format!(in alloc;
            "fault: plant 10 {operator}\n"
        ),
        PlantFault::NoMemory => Err(AllocError),
    }
}

/// Returns what is answered to an invalid plant.
pub fn answer_to_fault(alloc: Global, fault: PlantFault) -> Result<Answer, AllocError>
    ensures { IfOk result (λ answer. (status_code answer.status ≡ 3)
        × (answer.text.items ≡ codes "fault: plant " ++ fault_text fault)) }
{
    let line = plant_line(alloc, fault)?;
    let text = line.into_bytes();
    Ok(Answer {
        status: Status::InvalidPlant,
        text,
    })
}

/// Returns what is answered to an invalid line.
pub fn answer_to_line(alloc: Global, number: u64) -> Result<Answer, AllocError>
    ensures { IfOk result (λ answer. (status_code answer.status ≡ 4)
        × (answer.text.items ≡ codes "fault: line " ++ (decimal number ++ 10 ∷ []))) }
{
    let line = format!(in alloc; "fault: line {number}\n")?;
    let text = line.into_bytes();
    Ok(Answer {
        status: Status::InvalidLine,
        text,
    })
}

/// Returns what is answered to the script of a plant.
fn answer_to_script(alloc: Global, plant: Plant, script: &[u8]) -> Result<Answer, AnswerFault>
    ensures value { IfOk result (λ answer. (status_code answer.status ≡ (answer_to_steps (steps_of plant script.now)).status)
        × (answer.text.items ≡ (answer_to_steps (steps_of plant script.now)).text)) }
    ensures memory { IfErr result (λ fault. fault ≡ Memory) }
{
    let mut routes = Routes::new(alloc, plant)?;
    match steps_of(alloc, &mut routes, script) {
        Ok(_steps) => Ok(Answer {
            status: Status::Success,
            text: Vec::from_slice(alloc, b"ok\n")?,
        }),
        Err(LineFault::Shape { number }) => Ok(answer_to_line(alloc, number)?),
        Err(LineFault::NoMemory) => Err(AnswerFault::Memory),
    }
}

/// Reads the plant of an input: what is before the bar, whose place the caller knows.
pub(crate) fn plant_of_input(alloc: Global, input: &[u8], place: usize) -> Result<Plant, PlantFault>
    requires utf8 { is_utf8 input.now ≡ true }
    requires place { place ≡ before_bar true input.now }
    requires inside { place ≤ length input.now }
    ensures { Gives plant_cause (λ plant. plant) result (text_plant (parse_document (plant_text input.now))) }
{
    read_plant(alloc, plant_text(input, place))
}

/// Returns what `check` answers to an input.
#[tactic(auto, unfolding(crate::specs::Check::check_of))]
pub fn check_of(alloc: Global, input: &[u8]) -> Result<Answer, AnswerFault>
    requires { is_readable input.now ≡ true }
    ensures value { IfOk result (λ answer. (status_code answer.status ≡ (check_of input.now).status)
        × (answer.text.items ≡ (check_of input.now).text)) }
    ensures memory { IfErr result (λ fault. fault ≡ Memory) }
{
    let place = before_bar(input);
    match plant_of_input(alloc, input, place) {
        Ok(plant) => answer_to_script(alloc, plant, script_text(input, place)),
        Err(PlantFault::NoMemory) => Err(AnswerFault::Memory),
        Err(fault) => Ok(answer_to_fault(alloc, fault)?),
    }
}
