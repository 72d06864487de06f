/// A version of the journal's text.
#[derive(Clone, Copy, PartialEq, Eq, Debug)]
pub enum Version {
    /// `savi-journal 1`: a history of one segment. It is read, and no longer written.
    One,
    /// `savi-journal 2`: the segments of a history, one after another.
    Two,
}
