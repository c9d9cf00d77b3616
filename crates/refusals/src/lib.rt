// Why a call is refused (document 01, "Turned down by what is lent or received" and "Turned down by the session"; 02, orders 1, 5 and 7), by
// the names that polytune has, where it has one. docs/REFUSALS.md tells each.
#![tactic(auto)]

ghost use Rattle.std.specs.Prelude.{◌≡◌};
ghost use Rattle.refusals.specs.Reason.{number};
ghost use Rattle.refusals.specs.Numbered.{Numbered};

#[derive(Clone, Copy, Debug, PartialEq, Eq)]
pub enum Reason {
    InvalidBitValue = 1,
    CommitmentCouldNotBeOpened = 2,
    EmptyVector = 3,
    ConversionErr = 4,
    EmptyBucket = 5,
    InvalidLength = 6,
    InconsistentBroadcast = 7,
    ABitWrongMAC = 8,
    AShareWrongMAC = 9,
    LaANDXorNotZero = 10,
    AANDWrongMAC = 11,
    BeaverWrongMAC = 12,
    // "a message that doesn't decode"
    Undecodable = 13,
    // "a message marked missing"
    Missing = 14,
    // "n or i outside its range"
    PartyOutOfRange = 15,
    // "l above 300,000, or a bucket above 5"
    TooMany = 16,
    // "a lent buffer of a wrong length, or a message part outside it"
    WrongBuffer = 17,
    // "the list is no permutation of 0 to l·b − 1": it no longer occurs (02, order 6)
    NoPermutation = 18,
    // "a call for another round than the one due"
    WrongRound = 19,
    // "the session is done or ended"
    NoSession = 20,
    // "bytes after the value"
    TrailingBytes = 21,
    // a record's label that is not the one due
    WrongLabel = 22,
    // no batch, or too many
    WrongBatches = 23,
}

impl Reason {
    // Its number in the documents.
    pub fn number(self) -> u8
        ensures { result ≡ number self }
    {
        self as u8
    }
}

// A number that is no reason's.
#[derive(Clone, Copy, Debug, PartialEq, Eq)]
pub struct UnknownReason(pub u8);

impl TryFrom<u8> for Reason {
    type Error = UnknownReason;

    ghost try_from_gives = { Numbered };

    fn try_from(number: u8) -> Result<Self, UnknownReason> {
        match number {
            1 => Ok(Reason::InvalidBitValue),
            2 => Ok(Reason::CommitmentCouldNotBeOpened),
            3 => Ok(Reason::EmptyVector),
            4 => Ok(Reason::ConversionErr),
            5 => Ok(Reason::EmptyBucket),
            6 => Ok(Reason::InvalidLength),
            7 => Ok(Reason::InconsistentBroadcast),
            8 => Ok(Reason::ABitWrongMAC),
            9 => Ok(Reason::AShareWrongMAC),
            10 => Ok(Reason::LaANDXorNotZero),
            11 => Ok(Reason::AANDWrongMAC),
            12 => Ok(Reason::BeaverWrongMAC),
            13 => Ok(Reason::Undecodable),
            14 => Ok(Reason::Missing),
            15 => Ok(Reason::PartyOutOfRange),
            16 => Ok(Reason::TooMany),
            17 => Ok(Reason::WrongBuffer),
            18 => Ok(Reason::NoPermutation),
            19 => Ok(Reason::WrongRound),
            20 => Ok(Reason::NoSession),
            21 => Ok(Reason::TrailingBytes),
            22 => Ok(Reason::WrongLabel),
            23 => Ok(Reason::WrongBatches),
            _ => Err(UnknownReason(number)),
        }
    }
}
