// The state of a search, and how it goes on.
ghost use Rattle.std.specs.Prelude.{◌≡◌};
ghost use Rattle.routes.specs.Searches.{not_begun, begun_at, first_next, choose, line_done, after_row};
ghost use Rattle.routes.specs.Answers.{length_found};

use crate::errand::Errand;
use crate::reach::Reach;
use survey::leg::LegRow;
use survey::row::Row;

// What a search does next.
#[derive(Clone, Copy)]
pub enum Next {
    // Reads a line, for the station that it is finishing. Kept a number and no `Range`: a state is copied, and a range is not.
    Line { station: u8, line: u8 },
    // With the least length, if there is a route.
    Ended(Option<u32>),
}

// A search for the target over the first `count` lines.
#[derive(Clone, Copy)]
pub struct Search {
    pub target: u8,
    pub count: u8,
    pub next: Next,
    pub reach: Reach,
}

impl Search {
    // The search of an errand, before its first station is finished.
    pub(crate) fn before(errand: Errand) -> Search
        ensures { result ≡ not_begun errand.from errand.to errand.count }
    {
        Search {
            target: errand.to,
            count: errand.count,
            next: first_next(errand),
            reach: Reach::nowhere(),
        }
    }

    // Finishes the first station in place, so that a search done alone is not moved once it is begun: moved, it is copied by C's `memcpy`.
    pub(crate) fn begin(&mut self, errand: Errand)
        requires { self.old ≡ not_begun errand.from errand.to errand.count }
        ensures { self.new ≡ begun_at errand.from errand.to errand.count }
    {
        self.reach.finish_first(errand.from);
    }

    // Goes on with the nearest unfinished station, unless that is the target, or none is reached.
    fn choose_next(&mut self)
        ensures { self.new ≡ choose self.old.target self.old.count self.old.reach }
    {
        self.next = match self.reach.nearest() {
            None => Next::Ended(None),
            Some(nearest) if nearest.station == self.target => Next::Ended(Some(nearest.distance)),
            Some(nearest) => {
                self.reach.finish(nearest.station);
                Next::Line {
                    station: nearest.station,
                    line: 0,
                }
            }
        };
    }

    // Goes on once a line was taken into account: with the next line, or after the last one with the next station.
    fn finish_line(&mut self, station: u8, line: u8)
        ensures { self.new ≡ line_done self.old.target self.old.count station line self.old.reach }
    {
        if self.count.saturating_sub(line) > 1 {
            self.next = Next::Line {
                station,
                line: line + 1,
            };
        } else {
            self.choose_next();
        }
    }

    // Takes the row of the line that was asked for into account, as the leg that it counts as.
    pub(crate) fn take_in(&mut self, row: LegRow)
        ensures { self.new ≡ after_row self.old row self.old.next }
    {
        if let Next::Line { station, line } = self.next {
            self.reach.relax(station, row.or_blank());
            self.finish_line(station, line);
        }
    }

    // The length of the route that was found, once the search has ended with one.
    pub(crate) fn length_found(&self) -> Option<u32>
        ensures { result ≡ length_found self.now.next }
    {
        match self.next {
            Next::Ended(found) => found,
            _ => None,
        }
    }
}

// The first station's lines come first, unless it is the target, or there is no line.
fn first_next(errand: Errand) -> Next
    ensures { result ≡ first_next errand.from errand.to errand.count }
{
    if errand.from == errand.to {
        Next::Ended(Some(0))
    } else if errand.count == 0 {
        Next::Ended(None)
    } else {
        Next::Line {
            station: errand.from,
            line: 0,
        }
    }
}
