// A graph to list, as far as it does not lie in the table.
ghost use Rattle.std.specs.Prelude.{◌≡◌, ◌≤◌};
ghost use Rattle.model.specs.Calls.{refuse_settings};
ghost use Rattle.isolation.specs.Numbers.{settings_of};

use isolation::Settings;

// The settings and the number of vertices of a graph to list: the settings are not refused, and the program's table of 65,536 bytes holds at most 256 vertices.
#[derive(Clone, Copy)]
pub struct Listing {
    pub settings: Settings,
    pub vertices: usize,
    pub ghost proper: { refuse_settings (settings_of settings) ≡ 0 },
    pub ghost few: { vertices ≤ 256 },
}
