ghost use Rattle.std.specs.Prelude.{◌≤◌};

pub mod methods;

/// The limit L of a sheet: how many records may stand, 1 to 512.
#[derive(Clone, Copy)]
pub struct Limit {
    value: u16,
    ghost least: { 1 ≤ value },
    ghost most: { value ≤ 512 },
}
