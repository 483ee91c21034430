// Made-up books, by route jobs and by another method: every leg is taken into account over and over, with no order among the stations.
use book::flat::FlatBook;
use routes::alone::least_route;
use std::process::Abort;
use survey::leg::LegRow;

// A linear congruential generator: the books are the same in every run.
#[derive(Drop)]
struct Dice {
    state: u64,
}

impl Dice {
    fn roll(&mut self) -> u32 {
        self.state = self
            .state
            .wrapping_mul(6_364_136_223_846_793_005)
            .wrapping_add(1_442_695_040_888_963_407);
        (self.state >> 40) as u32
    }

    // One row in about five is closed or outside the ranges; short lengths make many ways equally long.
    fn row(&mut self) -> LegRow {
        let length = self.roll() % 12;
        let long = self.roll() % 10_000_002;
        LegRow {
            from: (self.roll() % 17) as u8,
            to: (self.roll() % 17) as u8,
            passage: if self.roll() % 8 == 0 { 0 } else { 1 },
            length: if self.roll() % 4 == 0 { long } else { length },
        }
    }

    fn fill(&mut self, rows: &mut [LegRow]) {
        for row in rows.iter_mut() {
            *row = self.row();
        }
    }
}

fn counts(row: LegRow) -> bool {
    row.from < 16 && row.to < 16 && row.passage == 1 && row.length >= 1 && row.length <= 10_000_000
}

// Kept the largest number for a station that is not reached: this is the other method, and owes nothing to the first.
fn lower(distances: &mut [u32], from: u8, to: u8, length: u32) {
    let Some(near) = distances.get(from as usize) else {
        return;
    };
    let along = near.saturating_add(length);
    if let Some(distance) = distances.get_mut(to as usize) {
        *distance = along.min(*distance);
    }
}

// One round over all rows, both ways.
fn relax_all(distances: &mut [u32], rows: &[LegRow]) {
    for row in rows {
        if counts(*row) {
            lower(distances, row.from, row.to, row.length);
            lower(distances, row.to, row.from, row.length);
        }
    }
}

// After as many rounds as there are stations nothing changes any more.
fn relax_for_good(distances: &mut [u32], rows: &[LegRow], from: u32) {
    if let Some(distance) = distances.get_mut(from as usize) {
        *distance = 0;
    }
    for _round in 0..16 {
        relax_all(distances, rows);
    }
}

// The routes of a book from one station.
fn compare_from(rt: &impl Abort, rows: &mut [LegRow], from: u32) {
    let mut distances = [u32::MAX; 16];
    relax_for_good(&mut distances, rows, from);
    let count = rows.len().min(64) as u32;
    let book = FlatBook::new(rows);
    for (to, distance) in distances.iter().enumerate() {
        let want = (*distance < u32::MAX).then_some(*distance);
        assert_eq!(rt; least_route(&book, from, to as u32, count), Ok(want));
    }
}

// The routes of a book of so many made-up rows, between every two stations.
fn compare_book(rt: &impl Abort, dice: &mut Dice, count: usize) {
    let mut memory = [LegRow {
        from: 0,
        to: 0,
        passage: 0,
        length: 1,
    }; 64];
    let rows = &mut memory[0..count.min(64)];
    dice.fill(rows);
    for from in 0..16u32 {
        compare_from(rt, rows, from);
    }
}

#[test]
fn made_up_books(rt: HostRuntime) {
    let mut dice = Dice { state: 20_250_611 };
    for book in 0..200usize {
        compare_book(&rt, &mut dice, book % 65);
    }
}
