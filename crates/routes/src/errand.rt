// What a search is sent for.
ghost use Rattle.std.specs.Prelude.{◌≤◌};

mod methods;

// The order of a search once its numbers are known to be in their ranges: from one station to another, over the lines below `count`.
#[derive(Clone, Copy)]
pub struct Errand {
    pub from: u8,
    pub to: u8,
    pub count: u8,
    ghost from_known: { from ≤ 15 },
    ghost to_known: { to ≤ 15 },
    ghost few_lines: { count ≤ 64 },
}
