// A second implementation of document 01's readers, machine, runner and bounds, and of document 02's items 1, 2 and 4 to 8, written
// separately from the library and its definitions: it shares no code with them. Its answers are numbers, 0 or that of a refusal, and no
// Results: the tests count them in the store under these numbers.
//
// Test code: it is proved that each function is safe and ends. Those that a comparison with the library reads its entries by have
// equations: which number of the store each of them answers.
#![tactic(auto)]

pub mod book;
pub mod bursts;
pub mod calls;
pub mod entries;
pub mod home;
pub mod past;
pub mod queues;
pub mod requests;
pub mod response;
mod scan;
pub mod sheet;
pub mod written;

// The rule that the second implementation breaks on purpose.
#[derive(Clone, Copy, PartialEq, Eq)]
pub enum Wrong {
    // None;
    Nothing,
    // 3 tested before 2,
    OrderFirst,
    // 6 tested before 7,
    FallingFirst,
    // budgets over the whole run,
    WholeRun,
    // the turn circle restarted at port 0,
    FromZero,
    // an allowance that grows while its turn runs,
    Growing,
    // a lower interconnect's turn reset when its parent moves on,
    LowerReset,
    // D that counts the accelerator's own port,
    OwnPort,
    // a capacity that is taken through the granularity of a lower interconnect,
    Nested,
    // 9 tested before 8,
    BudgetFirst,
    // 7 tested before 11 by an offer and by a bound,
    UnknownFirst,
    // 10 tested before 11 by a slot,
    LastFirst,
    // the buffer's size tested before 11 by a run,
    SizeFirst,
    // the trace tested before the buffer's size,
    TraceFirst,
    // the slot of service among those that a transaction waited,
    ServiceListed,
    // its admission one slot late,
    AdmittedLate,
    // the root for the interconnect at which two paths meet,
    RootMeets,
    // an earlier one of the same accelerator told by an interconnect,
    OwnMeets,
    // half a pair at the end of an odd buffer,
    HalfPair,
    // 12 tested before 7,
    NumberFirst,
    // returning transactions that do not count as outstanding,
    NotOutstanding,
    // that come home one slot late,
    HomeLate,
    // or one slot early, r slots after that of their service,
    HomeEarly,
    // or all where a window opens,
    HomeAtWindow,
    // a run that is done only when they are home,
    DoneAtHome,
    // a state kept in which one is due now,
    DueNow,
    // acc lines written in the order of the rows,
    AsRead,
    // or by the accelerators' numbers,
    ByNumber,
    // or without those at port 7,
    NoPort7,
    // a return delay of 0 written,
    ZeroWritten,
    // 2 tested before 11 by the writer,
    LongFirst,
    // or 13 tested before 11,
    ShortFirst,
    // and a text written as far as the buffer goes, and then refused by 13;
    WrittenShort,
    // phi of every accelerator counted on both channels,
    BothCount,
    // 14 tested after 8, as if none might be outstanding,
    JobLast,
    // or before 7, since what the tree has not has no job,
    JobFirst,
    // a state kept in which transactions of an accelerator without a job wait,
    JoblessKept,
    // the job looked at on the other channel,
    OtherChannel,
    // a run that admits from an accelerator without a job,
    JoblessAdmitted,
    // and one that is done though such an accelerator holds requests;
    DoneHolding,
    // the last piece of a burst with B beats,
    LastFull,
    // a later piece that starts from the start address not rounded down,
    NotRounded,
    // a page test by the length of the burst only,
    ByLength,
    // or one that refuses a burst which ends on the last byte of a page,
    EndCrosses,
    // 16 tested before 15,
    PageFirst,
    // 15 and 16 tested before 11 by the splitter and by an offered burst,
    BurstFirst,
    // beats of 3 bytes,
    ThreeBytes,
    // entries past the last piece that are left,
    EntriesLeft,
    // a joiner that is done one answer early,
    DoneEarly,
    // or takes the answer after the last,
    AfterLast,
    // a burst that is offered as one transaction,
    OneOffer,
    // from its first piece on, whichever it is to begin with,
    FromFirst,
    // and a refused piece counted among those admitted;
    RefusedCounted,
    // B up to 256 on a bus3 line,
    LongLetIn,
    // or up to 16 only on a bus line,
    LongRefused,
    // a second bus line passed over if its record name is the other one,
    OtherName,
    // bus3 written back as bus,
    NameLost,
    // bursts of up to 256 beats taken on every tree,
    Beats256,
    // or of up to 16 only;
    Beats16,
    // windows of a job rounded down,
    RoundedDown,
    // a response without the wait for new windows,
    NoWindows,
    // or with the other channel's slot time in it,
    OtherSlot,
    // and a window where there are no transactions.
    EmptyWindow,
}

// An answer on a file: 0 where it is accepted, or the number of a refusal; and the line.
#[derive(Clone, Copy)]
pub struct Said {
    pub number: usize,
    pub line: usize,
}

pub(crate) fn answer(number: usize, line: usize) -> Said {
    Said {
        number: number,
        line: line,
    }
}
