// Why a call is refused. Documents 01 and 02, "Numbers of a refused call". The names are those of `enum planner_number` in `include/planner.h`.
#![tactic(auto)]

ghost use Rattle.std.specs.Prelude.{◌≡◌};
ghost use Rattle.refusal.specs.Refusals.{number};

#[derive(Clone, Copy, Debug, PartialEq, Eq)]
pub enum Refusal {
    // the ticket ends inside a field that is due
    TicketEnds = 1,
    // D is 0 or above 8
    TicketDisks = 2,
    // a slot count is 0 or above 64
    TicketSlots = 3,
    // B is 0 or above 512
    TicketBlocks = 4,
    // a block's disk is D or more
    TicketBlockDisk = 5,
    // N is above 2048
    TicketReferences = 6,
    // a reference is B or more
    TicketReference = 7,
    // eight or more bits follow the ticket's fields, or one of them is 1
    TicketClosing = 8,
    // the sheet ends inside a field that is due
    SheetEnds = 9,
    // R is above 2048
    SheetRounds = 10,
    // the fetched block is not one of the disk's
    SheetFetched = 11,
    // the fetched block is in the buffer
    SheetResident = 12,
    // nothing is discarded, though every slot is taken
    SheetFull = 13,
    // the discarded block is not one of the disk's in its buffer
    SheetDiscarded = 14,
    // references are left after the last round
    SheetUnfinished = 15,
    // eight or more bits follow the sheet's fields, or one of them is 1
    SheetClosing = 16,
    // the short sheet has more bytes than its buffer
    ShortRoom = 17,
    // the sparing sheet has more bytes than its buffer
    SparingRoom = 18,
    // the page has more bytes than its buffer
    PageRoom = 19,
    // a block is discarded beside an empty slot
    SheetSlotEmpty = 20,
    // the stop is above N
    Stop = 21,
    // the note is malformed
    NoteMalformed = 22,
    // more than 16 parentheses of a note are open
    NoteParentheses = 23,
    // the note gives more references than 2048, or than the lent slice holds
    NoteReferences = 24,
    // a disk carries in more blocks than it has slots
    CarriedCount = 25,
    // a carried block is not above the one before it, B or more, or on another disk
    CarriedBlock = 26,
    // the disk whose slots are asked for is not one of the ticket's
    SlotsDisk = 27,
}

impl Refusal {
    // The papers' number.
    pub fn number(self) -> usize
        ensures { result ≡ number self }
    {
        self as usize
    }
}
