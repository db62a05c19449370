//! The command line as clap reads it: one small function for each argument and each subcommand.
ghost use Rattle.std.specs.Prelude.{◌≡◌, codes, false, IfOk, IsOkAnd};
ghost use Rattle.clap.specs.Words.{app_of, rule_of};
ghost use Rattle.clap.specs.declared.builder.command.Command.TheViews.{out-Command as fields_of};
ghost use Rattle.cap_line.specs.Command.{AddsMade, AddsRule, IsCapt, IsComparing, IsConvert, IsDiff, IsGathering};
ghost use Rattle.cap_line.specs.Command.{IsIgnoreRule, IsJoin, IsListing, IsMerge, IsOrderRule, IsPrinting};
ghost use Rattle.cap_line.specs.Command.{IsRequiredToRule, IsTimeRule, IsTimed, IsToRule, IsUnitRule, IsWriting};
ghost use Rattle.cap_line.specs.Command.{blocks_app, capt_alone, check_app, choice_rule, timing_app};
ghost use Rattle.cap_line.specs.Command.{cutting_app, data_rule, digest_app, file_rule, files_rule, flag_rule};
ghost use Rattle.cap_line.specs.Command.{info_app, list_app, list_rule, listed_rule, option_rule, out_rule};
ghost use Rattle.cap_line.specs.Command.{reading_app, report_app, required_rule, showing_app, skipping_app};
ghost use Rattle.cap_line.specs.Command.{surveying_app, top_rule, verify_rule};

use crate::texts;
use crate::usage::USAGE;
use clap::{Arg, ArgAction, Command};
use std::alloc::{AllocError, Global};

// The words that an option takes: orders, formats, forms of times, units of time, and what can be ignored.
static ORDERS: [&str; 2] = ["big", "little"];

static FORMATS: [&str; 2] = ["pcap", "pcapng"];

static TIMES: [&str; 3] = ["exact", "decimal", "utc"];

static UNITS: [&str; 2] = ["micro", "nano"];

static KINDS: [&str; 3] = ["time", "link", "original"];

// The flag of that name
fn flag<'a>(alloc: Global, name: &'a str, help: &'a str) -> Arg<'a>
    ensures rule { rule_of result ≡ flag_rule name.entry.now }
    ensures local { result.global ≡ false }
{
    Arg::new(alloc, name)
        .long(name)
        .action(ArgAction::SetTrue)
        .help(help)
}

// `--allow-cut`
fn allow_cut<'a>(alloc: Global) -> Arg<'a>
    ensures rule { rule_of result ≡ flag_rule (codes "allow-cut") }
    ensures local { result.global ≡ false }
{
    flag(alloc, "allow-cut", texts::ALLOW_CUT_HELP)
}

// `--explain`
fn explain<'a>(alloc: Global) -> Arg<'a>
    ensures rule { rule_of result ≡ flag_rule (codes "explain") }
    ensures local { result.global ≡ false }
{
    flag(alloc, "explain", texts::EXPLAIN_HELP)
}

// `--json`
fn json<'a>(alloc: Global) -> Arg<'a>
    ensures rule { rule_of result ≡ flag_rule (codes "json") }
    ensures local { result.global ≡ false }
{
    flag(alloc, "json", texts::JSON_HELP)
}

// `--names`
fn names<'a>(alloc: Global) -> Arg<'a>
    ensures rule { rule_of result ≡ flag_rule (codes "names") }
    ensures local { result.global ≡ false }
{
    flag(alloc, "names", texts::NAMES_HELP)
}

// `--class`
fn class<'a>(alloc: Global) -> Arg<'a>
    ensures rule { rule_of result ≡ flag_rule (codes "class") }
    ensures local { result.global ≡ false }
{
    flag(alloc, "class", texts::CLASS_HELP)
}

// `--ipv6`
fn ipv6<'a>(alloc: Global) -> Arg<'a>
    ensures rule { rule_of result ≡ flag_rule (codes "ipv6") }
    ensures local { result.global ≡ false }
{
    flag(alloc, "ipv6", texts::IPV6_HELP)
}

// `--digest`
fn digests<'a>(alloc: Global) -> Arg<'a>
    ensures rule { rule_of result ≡ flag_rule (codes "digest") }
    ensures local { result.global ≡ false }
{
    flag(alloc, "digest", texts::DIGESTS_HELP)
}

// The option of that name, which takes a text
fn option<'a>(alloc: Global, name: &'a str, value_name: &'a str, help: &'a str) -> Arg<'a>
    ensures rule { rule_of result ≡ option_rule name.entry.now }
    ensures local { result.global ≡ false }
{
    Arg::new(alloc, name)
        .long(name)
        .value_name(value_name)
        .help(help)
}

// `--data`
fn data<'a>(alloc: Global) -> Arg<'a>
    ensures rule { rule_of result ≡ data_rule }
    ensures local { result.global ≡ false }
{
    option(alloc, "data", "N", texts::DATA_HELP)
}

// `--top`
fn top<'a>(alloc: Global) -> Arg<'a>
    ensures rule { rule_of result ≡ top_rule }
    ensures local { result.global ≡ false }
{
    option(alloc, "top", "N", texts::TOP_HELP)
}

// `--files0-from`
fn list_of_files<'a>(alloc: Global) -> Arg<'a>
    ensures rule { rule_of result ≡ list_rule }
    ensures local { result.global ≡ false }
{
    option(alloc, "files0-from", "LIST", texts::LIST_OF_FILES_HELP)
}

// `--verify`
fn verify<'a>(alloc: Global) -> Arg<'a>
    ensures rule { rule_of result ≡ verify_rule }
    ensures local { result.global ≡ false }
{
    option(alloc, "verify", "LIST", texts::VERIFY_HELP)
}

// `--whole`
fn whole<'a>(alloc: Global) -> Arg<'a>
    ensures rule { rule_of result ≡ flag_rule (codes "whole") }
    ensures local { result.global ≡ false }
{
    flag(alloc, "whole", texts::WHOLE_HELP)
}

// `--share-interfaces`
fn share_interfaces<'a>(alloc: Global) -> Arg<'a>
    ensures rule { rule_of result ≡ flag_rule (codes "share-interfaces") }
    ensures local { result.global ≡ false }
{
    flag(alloc, "share-interfaces", texts::SHARE_HELP)
}

// `--skip-refused`
fn skip_refused<'a>(alloc: Global) -> Arg<'a>
    ensures rule { rule_of result ≡ flag_rule (codes "skip-refused") }
    ensures local { result.global ≡ false }
{
    flag(alloc, "skip-refused", texts::SKIP_HELP)
}

// The argument of that name, which is required
fn required<'a>(alloc: Global, name: &'a str, help: &'a str) -> Arg<'a>
    ensures rule { rule_of result ≡ required_rule name.entry.now }
    ensures local { result.global ≡ false }
{
    Arg::new(alloc, name).required(true).help(help)
}

// `FILE`
fn file<'a>(alloc: Global) -> Arg<'a>
    ensures rule { rule_of result ≡ file_rule }
    ensures local { result.global ≡ false }
{
    required(alloc, "FILE", texts::FILE_HELP)
}

// `FILE..`
fn files<'a>(alloc: Global) -> Arg<'a>
    ensures rule { rule_of result ≡ files_rule }
    ensures local { result.global ≡ false }
{
    file(alloc).num_args(1..).help(texts::FILES_HELP)
}

// `FILE..` of a command that takes any number of them, or a list in their place
fn listed_files<'a>(alloc: Global) -> Arg<'a>
    ensures rule { rule_of result ≡ listed_rule }
    ensures local { result.global ≡ false }
{
    Arg::new(alloc, "FILE")
        .num_args(1..)
        .help(texts::LISTED_FILES_HELP)
}

// The option of that name, which takes one of those names
fn choice<'a>(
    alloc: Global,
    option: &'a str,
    names: &'a [&'a str],
    value_name: &'a str,
    help: &'a str,
) -> Arg<'a>
    ensures rule { rule_of result ≡ choice_rule option.entry.now names.entry }
    ensures local { result.global ≡ false }
{
    Arg::new(alloc, option)
        .long(option)
        .value_parser(names)
        .value_name(value_name)
        .help(help)
}

// `--order`
fn order<'a>(alloc: Global, help: &'a str) -> Arg<'a>
    ensures rule { IsOrderRule (rule_of result) }
    ensures local { result.global ≡ false }
{
    choice(alloc, "order", ORDERS.as_slice(), "ORDER", help)
}

// `--ignore`, which may be given more than once
fn ignore<'a>(alloc: Global) -> Arg<'a>
    ensures rule { IsIgnoreRule (rule_of result) }
    ensures local { result.global ≡ false }
{
    choice(
        alloc,
        "ignore",
        KINDS.as_slice(),
        "KIND",
        texts::IGNORE_HELP,
    )
    .action(ArgAction::Append)
}

// `--time`
fn time<'a>(alloc: Global) -> Arg<'a>
    ensures rule { IsTimeRule (rule_of result) }
    ensures local { result.global ≡ false }
{
    choice(alloc, "time", TIMES.as_slice(), "FORM", texts::TIME_HELP)
}

// `--to`
fn to<'a>(alloc: Global, help: &'a str) -> Arg<'a>
    ensures rule { IsToRule (rule_of result) }
    ensures local { result.global ≡ false }
{
    choice(alloc, "to", FORMATS.as_slice(), "FORMAT", help)
}

// `--to`, which is required
fn required_to<'a>(alloc: Global) -> Arg<'a>
    ensures rule { IsRequiredToRule (rule_of result) }
    ensures local { result.global ≡ false }
{
    to(alloc, texts::TO_HELP).required(true)
}

// `--unit`
fn unit<'a>(alloc: Global) -> Arg<'a>
    ensures rule { IsUnitRule (rule_of result) }
    ensures local { result.global ≡ false }
{
    choice(alloc, "unit", UNITS.as_slice(), "UNIT", texts::UNIT_HELP)
}

// `-o`, `--output`
fn out<'a>(alloc: Global) -> Arg<'a>
    ensures rule { rule_of result ≡ out_rule }
    ensures local { result.global ≡ false }
{
    Arg::new(alloc, "out")
        .short('o')
        .long("output")
        .required(true)
        .value_name("OUT")
        .help(texts::OUT_HELP)
}

// A subcommand with `[--allow-cut]`
fn cutting<'a>(
    alloc: Global,
    name: &'a str,
    about: &'a str,
    help: &'a str,
) -> Result<Command<'a>, AllocError>
    ensures app { IfOk result (λ c. app_of c ≡ cutting_app name.entry.now) }
    ensures local { IfOk result (λ c. (fields_of c).has_globals ≡ false) }
{
    Command::new(alloc, name)
        .about(about)
        .after_help(help)
        .arg(allow_cut(alloc))
}

// What `make` makes of both, if they were made
fn both<A: Drop, B: Drop, C, F: FnOnce(A, B) -> Result<C, AllocError>>(
    first: Result<A, AllocError>,
    second: Result<B, AllocError>,
    make: F,
) -> Result<C, AllocError>
    requires { F.IsAlwaysCallable make }
    ensures { IfOk result (λ c. IsOkAnd first (λ a. IsOkAnd second (λ b. F.post make a b result))) }
{
    make(first?, second?)
}

// The command with that argument, if it was made. None of its arguments holds for commands below it.
fn with_argument<'a>(
    command: Result<Command<'a>, AllocError>,
    argument: Arg<'a>,
) -> Result<Command<'a>, AllocError>
    requires made_local { IfOk command (λ c. (fields_of c).has_globals ≡ false) }
    requires local { argument.global ≡ false }
    ensures app { IfOk result (λ c. AddsRule command.entry (rule_of argument.entry) (app_of c)) }
    ensures local { IfOk result (λ c. (fields_of c).has_globals ≡ false) }
{
    both(command, Ok(argument), Command::arg)
}

// The command with that subcommand, if both were made. No argument of the subcommand holds for commands
// below it.
fn with_subcommand<'a>(
    command: Result<Command<'a>, AllocError>,
    subcommand: Result<Command<'a>, AllocError>,
) -> Result<Command<'a>, AllocError>
    requires local { IfOk subcommand (λ s. (fields_of s).has_globals ≡ false) }
    ensures { IfOk result (λ c. AddsMade command.entry subcommand.entry (app_of c)) }
{
    both(command, subcommand, Command::subcommand)
}

// A subcommand with `[--allow-cut] [--explain]`, which each of them has
fn reading<'a>(
    alloc: Global,
    name: &'a str,
    about: &'a str,
    help: &'a str,
) -> Result<Command<'a>, AllocError>
    ensures app { IfOk result (λ c. app_of c ≡ reading_app name.entry.now) }
    ensures local { IfOk result (λ c. (fields_of c).has_globals ≡ false) }
{
    with_argument(cutting(alloc, name, about, help), explain(alloc))
}

// A subcommand that prints: with `[--allow-cut] [--explain] [--json]`, before its other arguments
fn showing<'a>(
    alloc: Global,
    name: &'a str,
    about: &'a str,
    help: &'a str,
) -> Result<Command<'a>, AllocError>
    ensures app { IfOk result (λ c. app_of c ≡ showing_app name.entry.now) }
    ensures local { IfOk result (λ c. (fields_of c).has_globals ≡ false) }
{
    with_argument(reading(alloc, name, about, help), json(alloc))
}

// A subcommand that prints times: with `[--time FORM]` too
fn timing<'a>(
    alloc: Global,
    name: &'a str,
    about: &'a str,
    help: &'a str,
) -> Result<Command<'a>, AllocError>
    ensures app { IfOk result (λ c. IsTimed (timing_app name.entry.now) (app_of c)) }
    ensures local { IfOk result (λ c. (fields_of c).has_globals ≡ false) }
{
    with_argument(showing(alloc, name, about, help), time(alloc))
}

// A subcommand with `.. [--order ORDER] [--unit UNIT] -o OUT [--whole]`, before its other arguments
fn writing<'a>(
    alloc: Global,
    name: &'a str,
    about: &'a str,
    help: &'a str,
    order_help: &'a str,
) -> Result<Command<'a>, AllocError>
    ensures app { IfOk result (λ c. IsWriting name.entry.now (app_of c)) }
    ensures local { IfOk result (λ c. (fields_of c).has_globals ≡ false) }
{
    let before = reading(alloc, name, about, help);
    let ordered = with_argument(before, order(alloc, order_help));
    let named = with_argument(with_argument(ordered, unit(alloc)), out(alloc));
    with_argument(named, whole(alloc))
}

// `list`
fn list<'a>(alloc: Global) -> Result<Command<'a>, AllocError>
    ensures app { IfOk result (λ c. IsTimed list_app (app_of c)) }
    ensures local { IfOk result (λ c. (fields_of c).has_globals ≡ false) }
{
    let before = timing(alloc, "list", texts::LIST_ABOUT, texts::LIST_HELP);
    let classed = with_argument(with_argument(before, class(alloc)), ipv6(alloc));
    with_argument(with_argument(classed, data(alloc)), file(alloc))
}

// `blocks`
fn blocks<'a>(alloc: Global) -> Result<Command<'a>, AllocError>
    ensures app { IfOk result (λ c. app_of c ≡ blocks_app) }
    ensures local { IfOk result (λ c. (fields_of c).has_globals ≡ false) }
{
    with_argument(
        showing(alloc, "blocks", texts::BLOCKS_ABOUT, texts::BLOCKS_HELP),
        file(alloc),
    )
}

// `diff`
fn diff<'a>(alloc: Global) -> Result<Command<'a>, AllocError>
    ensures app { IfOk result (λ c. IsDiff (app_of c)) }
    ensures local { IfOk result (λ c. (fields_of c).has_globals ≡ false) }
{
    let before = timing(alloc, "diff", texts::DIFF_ABOUT, texts::DIFF_HELP);
    let shown = with_argument(before, data(alloc));
    let ignoring = with_argument(shown, ignore(alloc));
    let first = required(alloc, "A", texts::A_HELP);
    with_argument(
        with_argument(ignoring, first),
        required(alloc, "B", texts::B_HELP),
    )
}

// A command that takes any number of captures, with `.. [--names] [--files0-from LIST] [FILE..]`
fn surveying<'a>(
    alloc: Global,
    before: Result<Command<'a>, AllocError>,
) -> Result<Command<'a>, AllocError>
    requires local { IfOk before (λ c. (fields_of c).has_globals ≡ false) }
    ensures app { IfOk result (λ c. IsOkAnd before.entry (λ b. app_of c ≡ surveying_app (app_of b))) }
    ensures local { IfOk result (λ c. (fields_of c).has_globals ≡ false) }
{
    let named = with_argument(before, names(alloc));
    with_argument(
        with_argument(named, list_of_files(alloc)),
        listed_files(alloc),
    )
}

// `digest`
fn digest<'a>(alloc: Global) -> Result<Command<'a>, AllocError>
    ensures app { IfOk result (λ c. app_of c ≡ digest_app) }
    ensures local { IfOk result (λ c. (fields_of c).has_globals ≡ false) }
{
    let before = showing(alloc, "digest", texts::DIGEST_ABOUT, texts::DIGEST_HELP);
    surveying(alloc, with_argument(before, verify(alloc)))
}

// `check`
fn check<'a>(alloc: Global) -> Result<Command<'a>, AllocError>
    ensures app { IfOk result (λ c. IsTimed check_app (app_of c)) }
    ensures local { IfOk result (λ c. (fields_of c).has_globals ≡ false) }
{
    let before = timing(alloc, "check", texts::CHECK_ABOUT, texts::CHECK_HELP);
    surveying(alloc, with_argument(before, digests(alloc)))
}

// A command that can leave out captures that are refused, with `[--skip-refused] FILE..` behind its other arguments
fn skipping<'a>(
    alloc: Global,
    before: Result<Command<'a>, AllocError>,
) -> Result<Command<'a>, AllocError>
    requires local { IfOk before (λ c. (fields_of c).has_globals ≡ false) }
    ensures app { IfOk result (λ c. IsOkAnd before.entry (λ b. app_of c ≡ skipping_app (app_of b))) }
    ensures local { IfOk result (λ c. (fields_of c).has_globals ≡ false) }
{
    let skipped = with_argument(before, skip_refused(alloc));
    with_argument(skipped, files(alloc))
}

// `info`
fn info<'a>(alloc: Global) -> Result<Command<'a>, AllocError>
    ensures app { IfOk result (λ c. IsTimed info_app (app_of c)) }
    ensures local { IfOk result (λ c. (fields_of c).has_globals ≡ false) }
{
    let before = timing(alloc, "info", texts::INFO_ABOUT, texts::INFO_HELP);
    skipping(alloc, before)
}

// `report`
fn report<'a>(alloc: Global) -> Result<Command<'a>, AllocError>
    ensures app { IfOk result (λ c. IsTimed report_app (app_of c)) }
    ensures local { IfOk result (λ c. (fields_of c).has_globals ≡ false) }
{
    let before = timing(alloc, "report", texts::REPORT_ABOUT, texts::REPORT_HELP);
    let topped = with_argument(before, top(alloc));
    skipping(alloc, with_argument(topped, ipv6(alloc)))
}

// `convert`
fn convert<'a>(alloc: Global) -> Result<Command<'a>, AllocError>
    ensures app { IfOk result (λ c. IsConvert (app_of c)) }
    ensures local { IfOk result (λ c. (fields_of c).has_globals ≡ false) }
{
    let before = writing(
        alloc,
        "convert",
        texts::CONVERT_ABOUT,
        texts::CONVERT_HELP,
        texts::ORDER_HELP,
    );
    with_argument(with_argument(before, required_to(alloc)), file(alloc))
}

// A subcommand with `[--allow-cut] [--explain] [--order ORDER] [--unit UNIT] -o OUT [--whole] [--to FORMAT] FILE..`
fn gathering<'a>(
    alloc: Global,
    name: &'a str,
    about: &'a str,
    help: &'a str,
    order_help: &'a str,
) -> Result<Command<'a>, AllocError>
    ensures app { IfOk result (λ c. IsGathering name.entry.now (app_of c)) }
    ensures local { IfOk result (λ c. (fields_of c).has_globals ≡ false) }
{
    let before = writing(alloc, name, about, help, order_help);
    let named = with_argument(before, to(alloc, texts::TO_DEFAULT_HELP));
    with_argument(named, files(alloc))
}

// `merge`
fn merge<'a>(alloc: Global) -> Result<Command<'a>, AllocError>
    ensures app { IfOk result (λ c. IsMerge (app_of c)) }
    ensures local { IfOk result (λ c. (fields_of c).has_globals ≡ false) }
{
    with_argument(
        gathering(
            alloc,
            "merge",
            texts::MERGE_ABOUT,
            texts::MERGE_HELP,
            texts::ORDER_SHORT_HELP,
        ),
        share_interfaces(alloc),
    )
}

// `join`
fn join<'a>(alloc: Global) -> Result<Command<'a>, AllocError>
    ensures app { IfOk result (λ c. IsJoin (app_of c)) }
    ensures local { IfOk result (λ c. (fields_of c).has_globals ≡ false) }
{
    gathering(
        alloc,
        "join",
        texts::JOIN_ABOUT,
        texts::JOIN_HELP,
        texts::ORDER_HELP,
    )
}

// `capt` without its subcommands
fn capt_itself<'a>(alloc: Global) -> Command<'a>
    ensures { app_of result ≡ capt_alone }
{
    Command::new(alloc, "capt")
        .version(texts::VERSION)
        .override_help(USAGE)
        .subcommand_required(true)
}

// `capt` with the subcommands that print one capture
fn listing<'a>(alloc: Global) -> Result<Command<'a>, AllocError>
    ensures { IfOk result (λ c. IsListing (app_of c)) }
{
    let capt = with_subcommand(Ok(capt_itself(alloc)), list(alloc));
    with_subcommand(capt, blocks(alloc))
}

// `capt` with these, `diff`, `digest` and `check`
fn comparing<'a>(alloc: Global) -> Result<Command<'a>, AllocError>
    ensures { IfOk result (λ c. IsComparing (app_of c)) }
{
    let capt = with_subcommand(listing(alloc), diff(alloc));
    let capt = with_subcommand(capt, digest(alloc));
    with_subcommand(capt, check(alloc))
}

// `capt` with the subcommands that print
fn printing<'a>(alloc: Global) -> Result<Command<'a>, AllocError>
    ensures { IfOk result (λ c. IsPrinting (app_of c)) }
{
    let capt = with_subcommand(comparing(alloc), info(alloc));
    with_subcommand(capt, report(alloc))
}

/// The command line of `capt`.
pub fn capt<'a>(alloc: Global) -> Result<Command<'a>, AllocError>
    ensures { IfOk result (λ c. IsCapt (app_of c)) }
{
    let capt = with_subcommand(printing(alloc), convert(alloc));
    let capt = with_subcommand(capt, merge(alloc));
    with_subcommand(capt, join(alloc))
}
