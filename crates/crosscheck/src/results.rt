// The counts that the program keeps in the store, and their labels.
use alter::tangle::Way;
use burstcheck::joins::JOINS;
use burstcheck::offers::{ADMITTED, IN_PART, OFFERED, OVER_16_OFFERED, RESUMED};
use burstcheck::splits::{AT_END, OLDER as OLDER_SPLITS, OVER_16, PIECES, SPLITS};
use callcheck::returns::{AT_ONCE, EARLIER, IN_EACH, ONE_MORE, TOO_FAR, UNUSED};
use callcheck::states::{BUDGET_PASSED, BUDGET_USED, ONE_RETURNS, ONE_WAITS};
use callcheck::{
    BROKEN, CHANGED, HELD_BACK, JOBLESS_AS_KEPT, JOBLESS_BROKEN, KEPT, OFFERS, SLOTS as SLOT_CALLS,
    STARTS, WRITE_STARTS,
};
use second::Wrong;
use store::{DIFFERENCES, WRONG, get};

// The counts. Trees by the number of their answer, 0 where accepted.
pub const TREES: usize = 3072;

// Traces by the number of their answer.
pub const TRACES: usize = 3088;

// Accepted trees by their deepest level.
pub const LEVELS: usize = 3104;

// Bounds, one past the last accelerator of each tree among them.
pub const BOUNDS: usize = 3112;

// Runs done and stopped.
pub const DONE: usize = 3113;

pub const STOPPED: usize = 3114;

// Accepted trees with four granularities on the way of an accelerator.
pub const VARIED: usize = 3115;

// Slots and windows of the runs, and bytes lent to them.
pub const SLOTS: usize = 3116;

pub const WINDOWS: usize = 3117;

pub const BUFFERS: usize = 3118;

// Files of the edge list and of case 11.
pub const EDGES: usize = 3119;

pub const CASE11: usize = 3120;

// Altered configurations that break their rules, and such that keep them.
pub const ALTERED: usize = 3122;

// Accepted trees with 15 interconnects, and with 32 accelerators.
pub const SIZES: usize = 3124;

// Runs by the number of their refusal.
pub const RUN_REFUSALS: usize = 3168;

// Bounds on altered configurations, by the number of their answer.
pub const BOUND_ANSWERS: usize = 3184;

// What the static library exports, called: 0 readings, 1 bounds, 2 reports, 3 reports that leave the page, 4 runs, 5 runs refused
// by the tree, 6 waits, 7 waits refused by the tree.
pub const EXPORTS: usize = 3248;

// Lines of accepted traces whose request was looked up in the bytes.
pub const REQUESTS: usize = 3256;

// Configurations that break their rules in one of the ways of `alter::tangle`.
pub const TANGLED: usize = 3264;

// Questions why a transaction waited, by the number of their answer.
pub const WHYS: usize = 3280;

// Of those told the slots waited, those served in the slot of admission, and those whose list is longer than the buffer.
pub const WHY_SLOTS: usize = 3376;

pub const WHYS_AT_ONCE: usize = 3377;

pub const WHYS_CUT: usize = 3378;

// Questions whose turn chose the buffer.
pub const WHYS_ASKED: usize = 3379;

// Runs that are so long that not each is asked of, and all runs that are.
pub const LONG_RUNS: usize = 3380;

pub const RUNS_ASKED: usize = 3381;

// Accepted trees with a return delay above 0, and with one of 15.
pub const DELAYED: usize = 3336;

// Files of the return delay's limits.
pub const DELAY_FILES: usize = 3338;

// Trees written back, and those of a file with a return delay of 0, which the text leaves out.
pub const WRITTEN: usize = 3382;

pub const ZEROS: usize = 3383;

// Texts of these trees that are not the written one.
pub const TEXTS: usize = 3384;

// Writings whose turn chose the buffer.
pub const WRITING_TURNS: usize = 3385;

// Writings by the number of their answer.
pub const WRITINGS: usize = 3392;

// Exported writings by the number of their answer on an accepted tree; at 1 those refused by the tree.
pub const REWRITINGS: usize = 3408;

// Accelerators of accepted trees by their jobs: 0 with reads and writes, 1 with writes only, 2 with reads only, 3 with neither.
pub const JOBS: usize = 3440;

// Runs that hold requests of an accelerator without a job on the channel, and runs on the write channel.
pub const STUCK: usize = 3444;

pub const WRITE_RUNS: usize = 3445;

// Questions of the write channel.
pub const WRITE_WHYS: usize = 3446;

// Exported runs and waits on a channel that there is not.
pub const NO_CHANNEL: usize = 3447;

// Listed inputs whose turn chose the channel.
pub const CHANNEL_TURNS: usize = 3448;

// Accepted trees whose bus line is named bus3.
pub const OLDER: usize = 3449;

// Files by the record names of their bus lines.
pub const NAME_FILES: usize = 3450;

// Altered configurations with the other record name: 0 such that break their rules, 1 such that keep them.
pub const RENAMED: usize = 3452;

// Exported splits by the number of their answer on an accepted tree; at 1 those refused by the tree.
pub const CUTS: usize = 3552;

// Exported answers of a joiner.
pub const JOINED: usize = 3576;

// What the program writes: a label to each line, and where its count stands.
const LINES: [(&str, usize); 209] = [
    ("trees accepted", TREES),
    ("trees accepted, 1 level", LEVELS + 1),
    ("trees accepted, 2 levels", LEVELS + 2),
    ("trees accepted, 3 levels", LEVELS + 3),
    ("trees accepted, 4 levels", LEVELS + 4),
    ("trees accepted, four different g on a way", VARIED),
    ("trees accepted, 15 interconnects", SIZES),
    ("trees accepted, 32 accelerators", SIZES + 1),
    ("trees accepted, return delay above 0", DELAYED),
    ("trees accepted, return delay 15", DELAYED + 1),
    ("trees accepted, bus3", OLDER),
    ("their jobs with reads and writes", JOBS),
    ("their jobs with reads only", JOBS + 2),
    ("their jobs with writes only", JOBS + 1),
    ("their jobs with neither", JOBS + 3),
    ("trees refused by 1", TREES + 1),
    ("trees refused by 2", TREES + 2),
    ("trees refused by 3", TREES + 3),
    ("trees refused by 4", TREES + 4),
    ("trees refused by 5", TREES + 5),
    ("traces accepted", TRACES),
    ("traces refused by 1", TRACES + 1),
    ("traces refused by 2", TRACES + 2),
    ("traces refused by 6", TRACES + 6),
    ("traces refused by 7", TRACES + 7),
    ("traces refused by 11", TRACES + 11),
    ("files of the edge list", EDGES),
    ("files of case 11", CASE11),
    ("files of the return delay's limits", DELAY_FILES),
    ("files of the bus line's names", NAME_FILES),
    ("bounds", BOUNDS),
    ("runs done", DONE),
    ("runs stopped", STOPPED),
    ("runs stopped, requests held without a job", STUCK),
    ("runs on the write channel", WRITE_RUNS),
    ("runs refused by 1", RUN_REFUSALS + 1),
    ("runs refused by 2", RUN_REFUSALS + 2),
    ("runs refused by 6", RUN_REFUSALS + 6),
    ("runs refused by 7", RUN_REFUSALS + 7),
    ("runs refused by 11", RUN_REFUSALS + 11),
    ("slots run", SLOTS),
    ("windows crossed", WINDOWS),
    ("bytes of the buffers", BUFFERS),
    ("starts", STARTS),
    ("starts refused by 11", STARTS + 11),
    ("starts on the write channel", WRITE_STARTS),
    ("offers admitted one by one", OFFERS),
    ("offers refused by 7", OFFERS + 7),
    ("offers refused by 8", OFFERS + 8),
    ("offers refused by 8, fewer than phi waiting", HELD_BACK),
    ("offers refused by 9", OFFERS + 9),
    ("offers refused by 11", OFFERS + 11),
    ("offers refused by 14", OFFERS + 14),
    ("slots served one by one", SLOT_CALLS),
    ("slots idle", SLOT_CALLS + 1),
    ("slots refused by 10", SLOT_CALLS + 10),
    ("slots refused by 11", SLOT_CALLS + 11),
    ("altered configurations that keep their rules", ALTERED + 1),
    ("altered configurations that break them", ALTERED),
    ("altered: the other record name, rules kept", RENAMED + 1),
    ("altered: the other record name, rules broken", RENAMED),
    ("their bounds given", BOUND_ANSWERS),
    ("their bounds refused by 7", BOUND_ANSWERS + 7),
    ("their bounds refused by 11", BOUND_ANSWERS + 11),
    (
        "altered: an interconnect names one above it",
        TANGLED + Way::Cycle as usize,
    ),
    (
        "altered: an interconnect and its parent name each other",
        TANGLED + Way::EachOther as usize,
    ),
    (
        "altered: two ports name an accelerator",
        TANGLED + Way::AcceleratorTwice as usize,
    ),
    (
        "altered: two ports name an interconnect",
        TANGLED + Way::InterconnectTwice as usize,
    ),
    (
        "altered: a number in an unused interconnect",
        TANGLED + Way::UnusedInterconnect as usize,
    ),
    (
        "altered: a number in an unused accelerator",
        TANGLED + Way::UnusedAccelerator as usize,
    ),
    (
        "altered: a port of an unused interconnect",
        TANGLED + Way::UnusedPort as usize,
    ),
    ("returns put in: one more, state kept", KEPT + ONE_MORE),
    (
        "returns put in: one in each slot, state kept",
        KEPT + IN_EACH,
    ),
    ("returns put in: one more, above phi", BROKEN + ONE_MORE),
    (
        "returns put in: one in each slot, above phi",
        BROKEN + IN_EACH,
    ),
    ("returns put in: one due now", BROKEN + AT_ONCE),
    ("returns put in: one due earlier", BROKEN + EARLIER),
    ("returns put in: one due too far ahead", BROKEN + TOO_FAR),
    (
        "returns put in: one of an unused accelerator",
        BROKEN + UNUSED,
    ),
    ("channel changed, state kept", CHANGED + 1),
    ("channel changed, state broken", CHANGED),
    (
        "without a job: its budget used, state kept",
        JOBLESS_AS_KEPT + BUDGET_USED,
    ),
    (
        "without a job: above its budget",
        JOBLESS_BROKEN + BUDGET_PASSED,
    ),
    ("without a job: one waiting", JOBLESS_BROKEN + ONE_WAITS),
    ("without a job: one returning", JOBLESS_BROKEN + ONE_RETURNS),
    ("requests looked up line by line", REQUESTS),
    ("runs asked for waits of every accelerator", RUNS_ASKED),
    ("waits told", WHYS),
    ("waits told, served in the slot of admission", WHYS_AT_ONCE),
    ("waits told, longer than the buffer", WHYS_CUT),
    ("slots of the waits told", WHY_SLOTS),
    ("waits refused by 1", WHYS + 1),
    ("waits refused by 2", WHYS + 2),
    ("waits refused by 6", WHYS + 6),
    ("waits refused by 7", WHYS + 7),
    ("waits refused by 11", WHYS + 11),
    ("waits refused by 12", WHYS + 12),
    ("waits asked on the write channel", WRITE_WHYS),
    ("trees written back", WRITTEN),
    ("trees written back, a return delay of 0 dropped", ZEROS),
    ("other texts of these trees", TEXTS),
    ("writings done", WRITINGS),
    ("writings refused by 2", WRITINGS + 2),
    ("writings refused by 11", WRITINGS + 11),
    ("writings refused by 13", WRITINGS + 13),
    ("bursts split", SPLITS),
    ("bursts split, ending on the last byte of a page", AT_END),
    ("bursts split, bus3", OLDER_SPLITS),
    ("pieces of the bursts split", PIECES),
    ("bursts refused by 11", SPLITS + 11),
    ("bursts refused by 15", SPLITS + 15),
    ("bursts refused by 15, bus3 and 17 to 256 beats", OVER_16),
    ("bursts refused by 16", SPLITS + 16),
    ("joiner: answers taken", JOINS),
    ("joiner: answers taken, done", JOINS + 1),
    ("joiner: answers refused by 11", JOINS + 11),
    ("bursts offered, none refused", OFFERED),
    ("bursts offered, admitted in part", IN_PART),
    ("bursts offered, begun with a later piece", RESUMED),
    ("pieces admitted", ADMITTED),
    ("bursts offered, refused by 7", OFFERED + 7),
    ("bursts offered, refused by 8", OFFERED + 8),
    ("bursts offered, refused by 9", OFFERED + 9),
    ("bursts offered, refused by 11", OFFERED + 11),
    ("bursts offered, refused by 14", OFFERED + 14),
    ("bursts offered, refused by 15", OFFERED + 15),
    (
        "bursts offered, refused by 15, bus3 and 17 to 256 beats",
        OVER_16_OFFERED,
    ),
    ("bursts offered, refused by 16", OFFERED + 16),
    ("exports: readings", EXPORTS),
    ("exports: bounds", EXPORTS + 1),
    ("exports: reports", EXPORTS + 2),
    ("exports: reports refused, the page left", EXPORTS + 3),
    ("exports: runs on an accepted tree", EXPORTS + 4),
    ("exports: runs refused by the tree", EXPORTS + 5),
    ("exports: waits on an accepted tree", EXPORTS + 6),
    ("exports: waits refused by the tree", EXPORTS + 7),
    ("exports: runs and waits refused by the channel", NO_CHANNEL),
    ("exports: writings done", REWRITINGS),
    ("exports: writings refused by 2", REWRITINGS + 2),
    ("exports: writings refused by 13", REWRITINGS + 13),
    ("exports: writings refused by the tree", REWRITINGS + 1),
    ("exports: bursts split", CUTS),
    ("exports: bursts refused by 15", CUTS + 15),
    ("exports: bursts refused by 16", CUTS + 16),
    ("exports: bursts refused by the tree", CUTS + 1),
    ("exports: answers to a joiner", JOINED),
    (
        "wrong: 3 tested before 2, trees seen",
        WRONG + Wrong::OrderFirst as usize,
    ),
    (
        "wrong: 6 tested before 7, traces seen",
        WRONG + Wrong::FallingFirst as usize,
    ),
    (
        "wrong: budgets over the whole run, runs seen",
        WRONG + Wrong::WholeRun as usize,
    ),
    (
        "wrong: circle restarted at port 0, runs seen",
        WRONG + Wrong::FromZero as usize,
    ),
    (
        "wrong: allowance grows in its turn, runs seen",
        WRONG + Wrong::Growing as usize,
    ),
    (
        "wrong: lower turn reset by its parent, runs seen",
        WRONG + Wrong::LowerReset as usize,
    ),
    (
        "wrong: D counts the own port, trees seen",
        WRONG + Wrong::OwnPort as usize,
    ),
    (
        "wrong: capacity through a lower g, trees seen",
        WRONG + Wrong::Nested as usize,
    ),
    (
        "wrong: 9 tested before 8, offers seen",
        WRONG + Wrong::BudgetFirst as usize,
    ),
    (
        "wrong: 7 tested before 11, offers and bounds seen",
        WRONG + Wrong::UnknownFirst as usize,
    ),
    (
        "wrong: 10 tested before 11, slots seen",
        WRONG + Wrong::LastFirst as usize,
    ),
    (
        "wrong: buffer tested before 11, runs seen",
        WRONG + Wrong::SizeFirst as usize,
    ),
    (
        "wrong: trace tested before the buffer, runs seen",
        WRONG + Wrong::TraceFirst as usize,
    ),
    (
        "wrong: the slot of service listed, waits seen",
        WRONG + Wrong::ServiceListed as usize,
    ),
    (
        "wrong: admission one slot late, waits seen",
        WRONG + Wrong::AdmittedLate as usize,
    ),
    (
        "wrong: the root for the meeting point, waits seen",
        WRONG + Wrong::RootMeets as usize,
    ),
    (
        "wrong: own told as an interconnect, waits seen",
        WRONG + Wrong::OwnMeets as usize,
    ),
    (
        "wrong: half a pair written, waits seen",
        WRONG + Wrong::HalfPair as usize,
    ),
    (
        "wrong: 12 tested before 7, waits seen",
        WRONG + Wrong::NumberFirst as usize,
    ),
    (
        "wrong: returns not outstanding, runs seen",
        WRONG + Wrong::NotOutstanding as usize,
    ),
    (
        "wrong: home one slot late, runs seen",
        WRONG + Wrong::HomeLate as usize,
    ),
    (
        "wrong: home one slot early, runs seen",
        WRONG + Wrong::HomeEarly as usize,
    ),
    (
        "wrong: home when a window opens, runs seen",
        WRONG + Wrong::HomeAtWindow as usize,
    ),
    (
        "wrong: done only when all are home, runs seen",
        WRONG + Wrong::DoneAtHome as usize,
    ),
    (
        "wrong: a return due now kept, offers and slots seen",
        WRONG + Wrong::DueNow as usize,
    ),
    (
        "wrong: acc lines as the file has them, trees seen",
        WRONG + Wrong::AsRead as usize,
    ),
    (
        "wrong: acc lines by number, trees seen",
        WRONG + Wrong::ByNumber as usize,
    ),
    (
        "wrong: acc lines at port 7 left out, trees seen",
        WRONG + Wrong::NoPort7 as usize,
    ),
    (
        "wrong: a return delay of 0 written, trees seen",
        WRONG + Wrong::ZeroWritten as usize,
    ),
    (
        "wrong: 2 tested before 11, writings seen",
        WRONG + Wrong::LongFirst as usize,
    ),
    (
        "wrong: 13 tested before 11, writings seen",
        WRONG + Wrong::ShortFirst as usize,
    ),
    (
        "wrong: written and then refused by 13, writings seen",
        WRONG + Wrong::WrittenShort as usize,
    ),
    (
        "wrong: phi counted on both channels, trees seen",
        WRONG + Wrong::BothCount as usize,
    ),
    (
        "wrong: 14 tested after 8, offers seen",
        WRONG + Wrong::JobLast as usize,
    ),
    (
        "wrong: 14 tested before 7, offers seen",
        WRONG + Wrong::JobFirst as usize,
    ),
    (
        "wrong: one waiting without a job kept, offers and slots seen",
        WRONG + Wrong::JoblessKept as usize,
    ),
    (
        "wrong: the other channel's job, offers and runs seen",
        WRONG + Wrong::OtherChannel as usize,
    ),
    (
        "wrong: admitted without a job, runs seen",
        WRONG + Wrong::JoblessAdmitted as usize,
    ),
    (
        "wrong: done though held without a job, runs seen",
        WRONG + Wrong::DoneHolding as usize,
    ),
    (
        "wrong: the last piece with B beats, bursts seen",
        WRONG + Wrong::LastFull as usize,
    ),
    (
        "wrong: a later start not rounded down, bursts seen",
        WRONG + Wrong::NotRounded as usize,
    ),
    (
        "wrong: a page test by length only, bursts seen",
        WRONG + Wrong::ByLength as usize,
    ),
    (
        "wrong: ending on the last byte of a page refused, bursts seen",
        WRONG + Wrong::EndCrosses as usize,
    ),
    (
        "wrong: 16 tested before 15, bursts seen",
        WRONG + Wrong::PageFirst as usize,
    ),
    (
        "wrong: 15 and 16 tested before 11, bursts seen",
        WRONG + Wrong::BurstFirst as usize,
    ),
    (
        "wrong: beats of 3 bytes, bursts seen",
        WRONG + Wrong::ThreeBytes as usize,
    ),
    (
        "wrong: entries past the last piece left, bursts seen",
        WRONG + Wrong::EntriesLeft as usize,
    ),
    (
        "wrong: done one answer early, answers seen",
        WRONG + Wrong::DoneEarly as usize,
    ),
    (
        "wrong: the answer after the last taken, answers seen",
        WRONG + Wrong::AfterLast as usize,
    ),
    (
        "wrong: a burst offered as one, bursts seen",
        WRONG + Wrong::OneOffer as usize,
    ),
    (
        "wrong: begun with the first piece, bursts seen",
        WRONG + Wrong::FromFirst as usize,
    ),
    (
        "wrong: the refused piece counted, bursts seen",
        WRONG + Wrong::RefusedCounted as usize,
    ),
    (
        "wrong: B up to 256 on a bus3 line, trees seen",
        WRONG + Wrong::LongLetIn as usize,
    ),
    (
        "wrong: B up to 16 only on a bus line, trees seen",
        WRONG + Wrong::LongRefused as usize,
    ),
    (
        "wrong: a second bus line of the other name passed over, trees seen",
        WRONG + Wrong::OtherName as usize,
    ),
    (
        "wrong: bus3 written as bus, trees seen",
        WRONG + Wrong::NameLost as usize,
    ),
    (
        "wrong: up to 256 beats on every tree, bursts seen",
        WRONG + Wrong::Beats256 as usize,
    ),
    (
        "wrong: up to 16 beats on every tree, bursts seen",
        WRONG + Wrong::Beats16 as usize,
    ),
    (
        "wrong: windows rounded down, trees seen",
        WRONG + Wrong::RoundedDown as usize,
    ),
    (
        "wrong: no wait for new windows, trees seen",
        WRONG + Wrong::NoWindows as usize,
    ),
    (
        "wrong: windows in the other channel's slot time, trees seen",
        WRONG + Wrong::OtherSlot as usize,
    ),
    (
        "wrong: a window for 0 transactions, trees seen",
        WRONG + Wrong::EmptyWindow as usize,
    ),
    ("differences", DIFFERENCES),
];

// Writes every count.
pub fn show(out: &impl Print, d: &[usize; 16384]) {
    for (label, place) in LINES.iter() {
        let n = get(d, *place, 0);
        let _ = println!(out; "{label}\t{n}");
    }
}
