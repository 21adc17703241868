// A graph tells the fields of rows. Its meaning is the list of rows, and asking it changes nothing.
ghost use Rattle.std.specs.Prelude.{◌≡◌, List, length};
ghost use Rattle.std.specs.Option.{option_map};
ghost use Rattle.std.specs.List.{slice_get};
ghost use Rattle.rows.specs.Rows.{Row, at, facts_of};

use crate::{Facts, ImportRecord};

pub trait Graph {
    ghost rows: { Self → List Row };

    fn count(&self) -> usize
        ensures { result ≡ length (rows self.now) };

    fn facts(&self, row: u16) -> Option<Facts>
        ensures { result ≡ option_map facts_of (slice_get (rows self.now) row) };

    // The two names have a method each, as they are two fields of a row: one by kind would be a `match` in each impl, and no shorter.
    fn id(&self, row: u16) -> Option<&[u8]>
        ensures { option_map (λ x. x.now) result ≡ option_map (λ q. q.id) (slice_get (rows self.now) row) };

    fn stable_id(&self, row: u16) -> Option<&[u8]>
        ensures { option_map (λ x. x.now) result ≡ option_map (λ q. q.stable_id) (slice_get (rows self.now) row) };

    // How many import records a row has; none where there is no such row.
    fn record_count(&self, row: u16) -> usize
        ensures { result ≡ length (at (rows self.now) row).records };

    fn record(&self, row: u16, place: usize) -> Option<ImportRecord>
        ensures { result ≡ slice_get (at (rows self.now) row).records place };
}
