// The kinds of call.
// A kind of call. A difference is printed with its number.
#[derive(Clone, Copy, PartialEq, Eq)]
pub enum Kind {
    SetUp = 1,
    Check,
    Save,
    Insert,
    Delete,
    Open,
    Close,
    SmallestX,
    LargestX,
    SmallestY,
    FirstToEnd,
    LastToEnd,
    EarliestStart,
    Listing,
    ListCovers,
    ListMeets,
    ListContains,
}

impl Kind {
    // Every kind, in the order in which they are counted.
    pub const ALL: [Kind; 17] = [
        Kind::SetUp,
        Kind::Check,
        Kind::Save,
        Kind::Insert,
        Kind::Delete,
        Kind::Open,
        Kind::Close,
        Kind::SmallestX,
        Kind::LargestX,
        Kind::SmallestY,
        Kind::FirstToEnd,
        Kind::LastToEnd,
        Kind::EarliestStart,
        Kind::Listing,
        Kind::ListCovers,
        Kind::ListMeets,
        Kind::ListContains,
    ];

    // The kinds that change nothing.
    pub const READING: [Kind; 12] = [
        Kind::Check,
        Kind::Save,
        Kind::SmallestX,
        Kind::LargestX,
        Kind::SmallestY,
        Kind::FirstToEnd,
        Kind::LastToEnd,
        Kind::EarliestStart,
        Kind::Listing,
        Kind::ListCovers,
        Kind::ListMeets,
        Kind::ListContains,
    ];

    pub fn is_change(self) -> bool {
        matches!(
            self,
            Kind::SetUp | Kind::Insert | Kind::Delete | Kind::Open | Kind::Close
        )
    }

    // A change of a strip.
    pub fn is_of_strip(self) -> bool {
        matches!(self, Kind::Open | Kind::Close)
    }

    pub fn is_listing(self) -> bool {
        matches!(
            self,
            Kind::Listing | Kind::ListCovers | Kind::ListMeets | Kind::ListContains
        )
    }

    // A question for one pair or strip, or a listing.
    pub fn is_question(self) -> bool {
        !self.is_change() && !matches!(self, Kind::Check | Kind::Save)
    }

    // Whether its first two numbers are slots of a line, up to 65,535.
    pub fn is_of_slots(self) -> bool {
        matches!(
            self,
            Kind::Open
                | Kind::Close
                | Kind::FirstToEnd
                | Kind::LastToEnd
                | Kind::EarliestStart
                | Kind::ListCovers
                | Kind::ListMeets
                | Kind::ListContains
        )
    }

    // The change that takes a change of this kind back.
    pub fn reversed(self) -> Option<Kind> {
        match self {
            Kind::Insert => Some(Kind::Delete),
            Kind::Delete => Some(Kind::Insert),
            Kind::Open => Some(Kind::Close),
            Kind::Close => Some(Kind::Open),
            _ => None,
        }
    }

    // As it is counted in print.
    pub fn name(self) -> &'static str {
        match self {
            Kind::SetUp => "set up",
            Kind::Check => "check",
            Kind::Save => "save",
            Kind::Insert => "insert",
            Kind::Delete => "delete",
            Kind::Open => "open",
            Kind::Close => "close",
            Kind::SmallestX => "smallest x",
            Kind::LargestX => "largest x",
            Kind::SmallestY => "smallest y",
            Kind::FirstToEnd => "first to end",
            Kind::LastToEnd => "last to end",
            Kind::EarliestStart => "earliest start",
            Kind::Listing => "listing",
            Kind::ListCovers => "list covers",
            Kind::ListMeets => "list meets",
            Kind::ListContains => "list contains",
        }
    }
}
