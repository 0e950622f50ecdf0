// The face: the calls of the library, and nothing else. A crate over it names `grain` alone; for other languages the same calls stand in
// `grain_c`, one for one.
#![tactic(auto)]

pub use bitmap::{Image, Picture, read as read_picture};
pub use csv_text::{refused as write_refused, write as write_report};
pub use figures::{Centroid, Figured, figures};
pub use hull::{Counts, Hulled, hull};
pub use lattice::Point;
pub use order::{Ordered, order};
pub use picture::respond;
pub use rebuild::{Rebuilt, rebuild};
pub use refusal::Refusal;
pub use report::{Findings, Judged, Judgement, Reported, report, verdict};
pub use rows::{Ends, row, row_ends};
