//! Settings that cannot be out of range.
ghost use Rattle.std.specs.Prelude.{◌≡◌, ◌≤◌};
ghost use Rattle.layers.specs.Outcomes.{setting, setting_of};

use crate::fault::LayerFault;
use std::fmt;

/// A number from 0 to `MOST`.
#[derive(Clone, Copy, PartialEq, Eq)]
pub struct Setting<const MOST: u32> {
    value: u32,
    ghost most: { value ≤ MOST },
}

/// A number of ticks from 0 to 10,000, by which every cost is raised.
pub type Ticks = Setting<10_000>;

/// A part of the deadline in percent, from 0 to 99, that has to stay free.
pub type Percent = Setting<99>;

impl<const MOST: u32> Setting<MOST> {
    /// None: no charge, or no margin.
    pub fn zero() -> Self
        ensures { result.value ≡ 0 }
    {
        Setting { value: 0 }
    }

    /// So much; refused over `MOST`.
    pub fn new(value: u32) -> Result<Self, LayerFault>
        ensures { setting_of (λ s. s.value) result ≡ setting MOST value }
    {
        if value > MOST {
            return Err(LayerFault::Range { field: 1 });
        }
        Ok(Setting { value })
    }

    /// How much.
    pub fn value(self) -> u32
        ensures { (result ≡ self.entry.value) × (result ≤ MOST) }
    {
        self.value
    }
}

// By hand: what is printed names the setting, and a derive would name the struct that all settings share.
impl<const MOST: u32> fmt::Debug for Setting<MOST> {
    fn fmt<W: fmt::Write>(&self, f: &mut fmt::Formatter<W>) -> fmt::Result {
        let name = match MOST {
            10_000 => "Ticks",
            99 => "Percent",
            _ => "Setting",
        };
        f.debug_struct(name).field("value", &self.value).finish()
    }
}
