//! What calls say of files besides those of `CALLS`, over files that are told, that are on record, and that come byte by byte. The
//! tables of all calls are data, `tools/lab/calls.py`, on which the built program is run.
use crate::call::{
    BOUND_HOSE, CHECK, CHECK_HOSE, CHECK_NETWORK, CHECK_RATES, CHECK_WITNESS, CONVERT, Command,
    LINK_BOUNDS, PATHS, PROTECT, PUBLISH, REPRICE, RUN, Row, UPDATE, all_say,
};
use crate::texts::{
    DEMAND, ENVELOPE, FAILURE, HOSE, LEADING_ZERO, LINE, LINK, NO_DEMANDS, PLAN, RATES, SMALL_BOX,
    SMALLEST, SMALLEST_WITH_LESS, SPF, TWELVE, TWICE_A_NAME, UNENDED_WITNESS, WAYS, WITNESS,
    WITNESS_OVER_ZERO,
};
use std::test::Fail;

const CHECK_TWICE: Command<'static> = Command {
    words: &["check", "c", "c"],
    names: &["c", "c"],
    publishes: false,
};

const NO_FORM: Command<'static> = Command {
    words: &["check", "c", "t", "t"],
    names: &["c", "t"],
    publishes: false,
};

/// Certificates.
const JUDGED: &[(Command<'static>, Row<'static>)] = &[
    (
        CHECK,
        (&[&[SMALL_BOX]], 1, 0, "yes ratio 1000000 set box\n"),
    ),
    (
        CHECK,
        (&[LEADING_ZERO], 1, 3, "refused: c: shape at line 11\n"),
    ),
    (CHECK_NETWORK, (&[&[SMALLEST]], 1, 4, "fault: read\n")),
    // One file for both words is read twice, and is no topology.
    (
        CHECK_TWICE,
        (&[&[SMALLEST], &[SMALLEST]], 2, 3, "refused: c: header\n"),
    ),
    (
        CONVERT,
        (&[TWICE_A_NAME], 1, 3, "refused: c: rule V1 at 1\n"),
    ),
    (NO_FORM, (&[&[SMALLEST], &[LINK]], 0, 2, "usage\n")),
];

#[test]
fn certificates_are_judged(rt: HostRuntime) -> Result<(), Fail> {
    all_say(&rt, rt.alloc(), JUDGED)
}

/// The potential rises by more than the weight of the link.
const STEEP: &[&str] = &[
    "yates-ratio 1\nnodes 2\na\nb\nlinks 1\n0 1 10 1\npairs 1\n0 1 1\n1000000 1 0\nset all\n",
    "ratio 1000000\nblocks 1\n0 1000000 1 1\n1\n0 0 2\nend\n",
];

/// Needs of links, and other capacities. The ratio of the certificate plays no part.
const PRICED: &[(Command<'static>, Row<'static>)] = &[
    (LINK_BOUNDS, (&[STEEP], 1, 1, "no link 0 rule I1 place 1\n")),
    (
        LINK_BOUNDS,
        (&[TWICE_A_NAME], 1, 3, "refused: c: rule V1 at 1\n"),
    ),
    (
        REPRICE,
        (&[STEEP, &[LINK]], 2, 1, "no link 0 rule I1 place 1\n"),
    ),
    (
        REPRICE,
        (&[&[SMALLEST], &[LINE]], 2, 3, "refused: t: not the links\n"),
    ),
    (REPRICE, (&[&[SMALLEST]], 1, 4, "fault: read\n")),
];

#[test]
fn capacities_are_taken(rt: HostRuntime) -> Result<(), Fail> {
    all_say(&rt, rt.alloc(), PRICED)
}

/// Witnesses. The inequalities of the certificate are not tried.
const WITNESSES: &[(Command<'static>, Row<'static>)] = &[
    (
        CHECK_WITNESS,
        (&[SMALLEST_WITH_LESS, WITNESS], 2, 0, "yes bound 1000000\n"),
    ),
    (
        CHECK_WITNESS,
        (
            &[&[SMALLEST], WITNESS_OVER_ZERO],
            2,
            3,
            "refused: w: rule U2 at 0\n",
        ),
    ),
    (
        CHECK_WITNESS,
        (
            &[&[SMALLEST], UNENDED_WITNESS],
            2,
            3,
            "refused: w: shape at line 7\n",
        ),
    ),
    // A certificate that is refused needs no witness.
    (
        CHECK_WITNESS,
        (&[TWICE_A_NAME], 1, 3, "refused: c: rule V1 at 1\n"),
    ),
    (CHECK_WITNESS, (&[&[SMALLEST]], 1, 4, "fault: read\n")),
];

#[test]
fn witnesses_are_judged(rt: HostRuntime) -> Result<(), Fail> {
    all_say(&rt, rt.alloc(), WITNESSES)
}

/// A certificate of a link of another cost, without pairs.
const OTHER_COST: &[&str] = &[
    "yates-ratio 1\nnodes 2\na\nb\nlinks 1\n0 1 10 2\npairs 0\nset all\nratio 0\nblocks 0\nend\n",
];

/// Updates.
const UPDATES: &[(Command<'static>, Row<'static>)] = &[
    (
        UPDATE,
        (
            &[
                &[SMALLEST],
                SMALLEST_WITH_LESS,
                &["step,source,target,demand\n0,a,b,11\n"],
            ],
            3,
            1,
            "no slack at link 0\n",
        ),
    ),
    (
        UPDATE,
        (&[&[SMALLEST], OTHER_COST, &[DEMAND]], 3, 1, "no network\n"),
    ),
    (
        UPDATE,
        (
            &[&[SMALLEST], &[SMALLEST], &[NO_DEMANDS]],
            3,
            1,
            "no pairs\n",
        ),
    ),
    // The older certificate that is refused needs no other file, and the newer one no matrices.
    (
        UPDATE,
        (
            &[TWICE_A_NAME, &[SMALLEST], &[DEMAND]],
            1,
            3,
            "refused: o: rule V1 at 1\n",
        ),
    ),
    (
        UPDATE,
        (
            &[&[SMALLEST], TWICE_A_NAME, &[DEMAND]],
            2,
            3,
            "refused: n: rule V1 at 1\n",
        ),
    ),
    // Matrices that are refused stand before another network.
    (
        UPDATE,
        (
            &[&[SMALLEST], OTHER_COST, &[LINK]],
            3,
            3,
            "refused: m: header\n",
        ),
    ),
    (UPDATE, (&[&[SMALLEST], &[SMALLEST]], 2, 4, "fault: read\n")),
];

#[test]
fn updates_are_planned(rt: HostRuntime) -> Result<(), Fail> {
    all_say(&rt, rt.alloc(), UPDATES)
}

/// Rates. The inequalities of the certificate are not tried.
const PROTECTED: &[(Command<'static>, Row<'static>)] = &[
    (PROTECT, (&[&[SMALLEST], &[NO_DEMANDS]], 2, 1, "no pairs\n")),
    (
        PROTECT,
        (&[TWICE_A_NAME], 1, 3, "refused: c: rule V1 at 1\n"),
    ),
    (
        PROTECT,
        (&[&[SMALLEST], &[LINK]], 2, 3, "refused: m: header\n"),
    ),
    (PROTECT, (&[&[SMALLEST]], 1, 4, "fault: read\n")),
];

#[test]
fn rates_are_made(rt: HostRuntime) -> Result<(), Fail> {
    all_say(&rt, rt.alloc(), PROTECTED)
}

/// The grant of the rates is greater than their allocation.
const RATES_OF_MORE: &[&str] = &["yates-rates 1\nfailures 0\n", "2 1\nend\n"];

/// Nine links may fail.
const RATES_OF_NINE: &[&str] = &["yates-rates 1\nfailures 9\n", "0 1\nend\n"];

/// Rates that are judged.
const RATED: &[(Command<'static>, Row<'static>)] = &[
    (
        CHECK_RATES,
        (
            &[&[SMALLEST], &[DEMAND], RATES_OF_MORE],
            3,
            1,
            "no rule F2 place 0\n",
        ),
    ),
    (
        CHECK_RATES,
        (&[&[SMALLEST], &[NO_DEMANDS], &[RATES]], 3, 1, "no pairs\n"),
    ),
    // Rates that are refused stand before other pairs.
    (
        CHECK_RATES,
        (
            &[&[SMALLEST], &[NO_DEMANDS], RATES_OF_NINE],
            3,
            3,
            "refused: r: rule G1 at 0\n",
        ),
    ),
    // Matrices that are refused need no rates.
    (
        CHECK_RATES,
        (&[&[SMALLEST], &[LINK]], 2, 3, "refused: m: header\n"),
    ),
    (
        CHECK_RATES,
        (&[&[SMALLEST], &[DEMAND]], 2, 4, "fault: read\n"),
    ),
];

#[test]
fn rates_are_judged(rt: HostRuntime) -> Result<(), Fail> {
    all_say(&rt, rt.alloc(), RATED)
}

/// The bound of the hose certificate is too low.
const HOSE_OF_LESS: &[&str] = &[
    "yates-hose 1\nsent 40 0\nreceived 0 10\nbound 999999\n",
    "blocks 1\nlink 0\ntails 0 0\nheads 0 1000000\nend\n",
];

/// A number of it is above a million.
const HOSE_OF_MORE: &[&str] = &[
    "yates-hose 1\nsent 40 0\nreceived 0 10\nbound 1000000\n",
    "blocks 1\nlink 0\ntails 0 0\nheads 0 1000001\nend\n",
];

/// Hoses. The inequalities of the certificate are not tried.
const HOSES: &[(Command<'static>, Row<'static>)] = &[
    (
        BOUND_HOSE,
        (
            &[&[SMALLEST], &[HOSE]],
            2,
            3,
            "refused: b: shape at line 1\n",
        ),
    ),
    (BOUND_HOSE, (&[&[SMALLEST]], 1, 4, "fault: read\n")),
    (
        CHECK_HOSE,
        (
            &[&[SMALLEST], HOSE_OF_LESS],
            2,
            1,
            "no link 0 rule H2 place 0\n",
        ),
    ),
    (
        CHECK_HOSE,
        (
            &[&[SMALLEST], HOSE_OF_MORE],
            2,
            3,
            "refused: h: rule K4 at 0\n",
        ),
    ),
    // A certificate that is refused needs no other file.
    (
        CHECK_HOSE,
        (&[TWICE_A_NAME], 1, 3, "refused: c: rule V1 at 1\n"),
    ),
];

#[test]
fn hoses_are_bounded(rt: HostRuntime) -> Result<(), Fail> {
    all_say(&rt, rt.alloc(), HOSES)
}

/// Plans.
const PLANS: &[(Command<'static>, Row<'static>)] = &[
    (
        PUBLISH,
        (
            &[
                &[ENVELOPE],
                &[LINK],
                &["step,source,target,demand\n0,a,b,5\n1,a,b,9\n"],
            ],
            3,
            0,
            "yates-ratio 2\nnodes 2\na\nb\nlinks 1\n0 1 10 1\npairs 1\n0 1 1\n1000000 1 0\nset box\nlower 5\nupper 9\nratio 1000000\nblocks 1\n",
        ),
    ),
    (
        PUBLISH,
        (
            &[
                &[SPF],
                &[LINE],
                &["step,source,target,demand\n0,c,a,1\n0,b,a,1\n"],
            ],
            3,
            7,
            "no path: b a\n",
        ),
    ),
    (
        PUBLISH,
        (
            &[&["{}"], &[LINE], &[DEMAND]],
            1,
            3,
            "refused: p: missing topology\n",
        ),
    ),
    (PUBLISH, (&[&[SPF], &[], &[DEMAND]], 1, 4, "fault: read\n")),
    (
        RUN,
        (
            &[
                &[
                    "{\"topology\":\"t\",\"matrices\":\"m\",\"failures\":\"f\",\"schemes\":[\"ksp\"],\"k\":2,\"recovery\":\"none\"}",
                ],
                &[WAYS],
                &[TWELVE],
                &[FAILURE],
            ],
            4,
            0,
            "scheme,step,offered,delivered,lost_full,lost_failed,lost_no_path,peak,parts,low\n\
         ksp,0,12,12,0,0,0,600000,600000,-\n\
         ksp,1,12,6,0,6,0,600000,600000,-\n\
         ksp,total,24,18,0,6,0,600000,600000,-\n",
        ),
    ),
    (
        RUN,
        (
            &[&[PLAN], &[WAYS], &[WAYS], &[FAILURE]],
            3,
            3,
            "refused: m: header\n",
        ),
    ),
    (
        RUN,
        (
            &[&[PLAN], &[WAYS], &[TWELVE], &[FAILURE, "1,1\n"]],
            4,
            3,
            "refused: f: fields at row 2\n",
        ),
    ),
];

const STEP_AFTER_LAST: Command<'static> = Command {
    words: &["paths", "p", "2"],
    ..PATHS
};

const NO_STEP_FORM: Command<'static> = Command {
    words: &["paths", "p", "01"],
    ..PATHS
};

/// Words of a breakdown.
const BREAKDOWNS: &[(Command<'static>, Row<'static>)] = &[
    // A step that the series does not have is refused before the failures are read.
    (
        STEP_AFTER_LAST,
        (
            &[&[PLAN], &[WAYS], &[TWELVE], &[FAILURE]],
            3,
            3,
            "refused: m: no step 2\n",
        ),
    ),
    (
        NO_STEP_FORM,
        (&[&[PLAN], &[WAYS], &[TWELVE], &[FAILURE]], 0, 2, "usage\n"),
    ),
];

#[test]
fn steps_are_broken_down(rt: HostRuntime) -> Result<(), Fail> {
    all_say(&rt, rt.alloc(), BREAKDOWNS)
}

#[test]
fn plans_are_carried_out(rt: HostRuntime) -> Result<(), Fail> {
    all_say(&rt, rt.alloc(), PLANS)
}
