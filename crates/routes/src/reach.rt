// How far the stations are by the routes that a search has found, and the nearest that it has not finished.
ghost use Rattle.std.specs.Prelude.{◌≡◌, ◌<◌, ◌≤◌, Some, true, slice_set};
ghost use Rattle.routes.specs.Reaches.{unknown, all_unknown, station_at, improved, relaxed, marked, with_station, nearest_of, Inside};

use survey::leg::Leg;

pub const STATIONS: usize = 16;

// What a search knows of a station. Kept a mark beside the distance: a pass lowers a distance whether its station is marked or not, so that an enum of three has that rule twice.
#[derive(Clone, Copy)]
pub struct Station {
    // The length of the shortest route to it that was found, if one was.
    pub distance: Option<u32>,
    // A station is finished once its least distance is known; it is marked when it is chosen.
    pub finished: bool,
}

// What a search knows of each station.
#[derive(Clone, Copy)]
pub struct Reach {
    pub stations: [Station; STATIONS],
}

// A station and its distance.
#[derive(Clone, Copy)]
pub struct Nearest {
    pub station: u8,
    pub distance: u32,
}

impl Station {
    // A station to which no route was found.
    fn unknown() -> Station
        ensures { result ≡ unknown }
    {
        Station {
            distance: None,
            finished: false,
        }
    }

    // The nearer of `best` and this station, unless it is finished or not reached.
    fn nearer(self, number: u8, best: Option<Nearest>) -> Option<Nearest>
        ensures { result ≡ with_station self number best }
    {
        let Some(distance) = self.distance else {
            return best;
        };
        if !self.finished && best.is_none_or(|best| distance < best.distance) {
            Some(Nearest {
                station: number,
                distance,
            })
        } else {
            best
        }
    }
}

// Stations are kept bytes: a state lies in memory that others could alter, so that it may hold any byte.
impl Reach {
    // No station is reached.
    pub(crate) fn nowhere() -> Reach
        ensures { result.stations ≡ all_unknown }
    {
        Reach {
            stations: [Station::unknown(); STATIONS],
        }
    }

    // The first station is reached at distance 0, and finished.
    pub(crate) fn finish_first(&mut self, station: u8)
        requires { station < 16 }
        ensures { self.new.stations ≡ slice_set self.old.stations station (record { distance = Some 0; finished = true }) }
    {
        self.stations[usize::from(station)] = Station {
            distance: Some(0),
            finished: true,
        };
    }

    fn station(&self, number: u8) -> Station
        ensures { result ≡ station_at self.now.stations number }
    {
        self.stations
            .get(usize::from(number))
            .copied()
            .unwrap_or(Station::unknown())
    }

    // Notes a route of length `distance` to a station, if it is shorter. The largest number of 32 bits, to which no search comes, is never noted.
    fn improve(&mut self, station: u8, distance: u32)
        requires { station ≤ 15 }
        ensures { self.new.stations ≡ improved station distance self.old.stations }
    {
        let known = &mut self.stations[usize::from(station)];
        if distance < known.distance.unwrap_or(u32::MAX) {
            known.distance = Some(distance);
        }
    }

    // Takes a leg from `station` into account.
    pub(crate) fn relax(&mut self, station: u8, leg: Leg)
        ensures { self.new.stations ≡ relaxed station leg.row self.old.stations }
    {
        let Some(distance) = self.station(station).distance else {
            return;
        };
        let along = distance.saturating_add(leg.length());
        if leg.leads(station, leg.to()) {
            self.improve(leg.to(), along);
        }
        if leg.leads(station, leg.from()) {
            self.improve(leg.from(), along);
        }
    }

    // Marks a station as finished.
    pub(crate) fn finish(&mut self, station: u8)
        requires { station < 16 }
        ensures { self.new.stations ≡ marked station self.old.stations }
    {
        self.stations[usize::from(station)].finished = true;
    }

    // The nearest station that is reached and not finished, the lowest number among equals.
    pub(crate) fn nearest(&self) -> Option<Nearest>
        ensures value { result ≡ nearest_of self.now.stations }
        ensures inside { Inside result }
    {
        self.stations.iter().zip(0..STATIONS as u8).fold(
            None,
            |best, (station, number)| station.nearer(number, best),
        )
    }
}
