ghost use Rattle.std.specs.Prelude.{◌≡◌, ◌<◌, ◌↔◌, IfSome};

use std::marker::Model;

/// How many frames of waiting raise a flow's rank by one, 1 to 255. Contracts see it as a number.
#[derive(Clone, Copy, Debug, PartialEq, Eq)]
pub struct AgingStep {
    frames: u8,
}

impl Model for AgingStep {
    ghost use Rattle.std.specs.Prelude.{ℕ, ◌<◌};

    ghost Value = { ℕ };

    ghost view = { λ s. s.frames };

    ghost invariant = { λ s. 0 < s.frames };

    ghost inverse = { λ n. record { frames = n } };
}

impl AgingStep {
    /// Returns the frames of waiting that raise a rank by one, 1 to 255.
    pub fn get(self) -> u8
        ensures value { result ≡ self }
        ensures positive { 0 < self }
    {
        self.frames
    }
}

/// By what an operator orders its flows.
#[derive(Clone, Copy, Debug, PartialEq, Eq)]
pub enum Policy {
    /// By traffic priority alone.
    Strict,
    /// By traffic priority, raised by one rank for each `step` frames waited.
    Aged { step: AgingStep },
    /// The shortest backlog first.
    Short,
}

impl Policy {
    /// Returns the policy that raises a rank by one for each `step` frames waited; none for a step
    /// of 0.
    pub fn aged(step: u8) -> Option<Self>
        ensures refused { (result ≡ None) ↔ (step ≡ 0) }
        ensures kept { IfSome result (λ policy. policy ≡ Policy.Aged step) }
    {
        if step == 0 {
            None
        } else {
            Some(Policy::Aged {
                step: AgingStep { frames: step },
            })
        }
    }
}
