//! A call of each command that reads files, and of each status but those of failures.
use crate::call::{
    ATTACK, BOUND_HOSE, CHALLENGE, CHECK, CHECK_HOSE, CHECK_NETWORK, CHECK_RATES, CHECK_WITNESS,
    CONVERT, Command, LINK_BOUNDS, LINKS, PAIRS, PATHS, PROTECT, PUBLISH, REPRICE, RUN, Row,
    SIMULATE, TIGHTEN, UPDATE,
};
use crate::texts::{
    BOUNDS, DEMAND, FAILURE, HOSE, LINE, LINK, PLAN, RATES, SMALLEST, SMALLEST_IN_SECOND,
    SMALLEST_WITH_LESS, SPF, TWELVE, TWICE_A_NAME, WAYS, WITNESS, WITNESS_OF_MORE,
};

const NO_WORDS: Command<'static> = Command {
    words: &[],
    names: &[],
    publishes: false,
};

const WITNESS_TEXT: &str =
    "yates-witness 1\nbound 1000000\nscale 1 1\ndemand 1000000\n1\n1000000 1 0\nend\n";

/// Each command that reads files once at least, and each status but those of failures. The ratio of a certificate plays no part where
/// only its head or its blocks are taken. The breakdowns are of the second step of a plan, in which its least path asks too much of a link.
pub const CALLS: &[(Command<'static>, Row<'static>)] = &[
    (CHECK, (&[&[SMALLEST]], 1, 0, "yes ratio 1000000 set all\n")),
    (
        CHECK,
        (&[SMALLEST_WITH_LESS], 1, 1, "no link 0 rule I4 place 0\n"),
    ),
    (CHECK, (&[TWICE_A_NAME], 1, 3, "refused: c: rule V1 at 1\n")),
    (
        CHECK_NETWORK,
        (&[&[SMALLEST], &[LINE]], 2, 1, "no network\n"),
    ),
    (
        CHECK_WITNESS,
        (&[&[SMALLEST], WITNESS], 2, 0, "yes bound 1000000\n"),
    ),
    (
        CHECK_WITNESS,
        (
            &[&[SMALLEST_IN_SECOND], WITNESS_OF_MORE],
            2,
            1,
            "no rule J2 place 0\n",
        ),
    ),
    (ATTACK, (&[&[SMALLEST]], 1, 0, WITNESS_TEXT)),
    (CHALLENGE, (&[&[SMALLEST]], 1, 0, WITNESS_TEXT)),
    (CONVERT, (&[&[SMALLEST]], 1, 0, SMALLEST_IN_SECOND)),
    (
        LINK_BOUNDS,
        (
            &[SMALLEST_WITH_LESS],
            1,
            0,
            "link,source,target,capacity,need\n0,a,b,10,1000000\n",
        ),
    ),
    (REPRICE, (&[SMALLEST_WITH_LESS, &[LINK]], 2, 0, SMALLEST)),
    (
        TIGHTEN,
        (
            &[SMALLEST_WITH_LESS],
            1,
            0,
            "1000000 1 0\nset all\nratio 1000000\nblocks 1\n0 ",
        ),
    ),
    (
        UPDATE,
        (
            &[&[SMALLEST], &[SMALLEST_IN_SECOND], &[DEMAND]],
            3,
            0,
            "yates-update 1\nsteps 1\npaths 1\n0 1000000 1000000 1 0\nend\n",
        ),
    ),
    (PROTECT, (&[SMALLEST_WITH_LESS, &[DEMAND]], 2, 0, RATES)),
    (
        CHECK_RATES,
        (
            &[&[SMALLEST_IN_SECOND], &[DEMAND], &[RATES]],
            3,
            0,
            "yes failures 0\n",
        ),
    ),
    (BOUND_HOSE, (&[SMALLEST_WITH_LESS, &[BOUNDS]], 2, 0, HOSE)),
    (
        CHECK_HOSE,
        (
            &[&[SMALLEST_IN_SECOND], &[HOSE]],
            2,
            0,
            "yes bound 1000000\n",
        ),
    ),
    (
        PUBLISH,
        (
            &[&[SPF], &[LINK], &[DEMAND]],
            3,
            0,
            "yates-ratio 1\nnodes 2\na\nb\nlinks 1\n0 1 10 1\npairs 1\n0 1 1\n1000000 1 0\nset all\nratio 1000000\nblocks 1\n",
        ),
    ),
    (
        PUBLISH,
        (
            &[&[SPF], &[LINE], &["step,source,target,demand\n0,c,a,1\n"]],
            3,
            7,
            "no path: c a\n",
        ),
    ),
    (
        RUN,
        (
            &[&[PLAN], &[WAYS], &[TWELVE], &[FAILURE]],
            4,
            0,
            "scheme,step,offered,delivered,lost_full,lost_failed,lost_no_path,peak,parts,low\n\
         spf,0,12,10,2,0,0,1000000,1200000,-\n\
         spf,1,12,10,2,0,0,1000000,1200000,-\n\
         spf,total,24,20,4,0,0,1000000,1200000,-\n",
        ),
    ),
    (
        LINKS,
        (
            &[&[PLAN], &[WAYS], &[TWELVE], &[FAILURE]],
            4,
            0,
            "scheme,link,source,target,capacity,failed,asked,carried,asked_parts,carried_parts\n\
         spf,0,s,t,10,no,12,10,1200000,1000000\n\
         spf,1,s,x,10,yes,0,0,0,0\n\
         spf,2,x,t,10,no,0,0,0,0\n\
         spf,3,s,y,3,no,0,0,0,0\n\
         spf,4,y,x,3,no,0,0,0,0\n",
        ),
    ),
    (
        PAIRS,
        (
            &[&[PLAN], &[WAYS], &[TWELVE], &[FAILURE]],
            4,
            0,
            "scheme,source,target,offered,delivered,lost_full,lost_failed,lost_no_path,paths,cost,least_cost\n\
         spf,s,t,12,10,2,0,0,1,1000000,1000000\n",
        ),
    ),
    (
        PATHS,
        (
            &[&[PLAN], &[WAYS], &[TWELVE], &[FAILURE]],
            4,
            0,
            "scheme,source,target,weight,links\nspf,s,t,1000000,0\n",
        ),
    ),
    (
        SIMULATE,
        (
            &[&[SMALLEST], &[SPF], &[LINK], &[DEMAND]],
            4,
            0,
            "scheme,step,offered,delivered,lost_full,lost_failed,lost_no_path,peak,parts,low\n\
         certificate,0,1,1,0,0,0,100000,100000,-\n\
         certificate,total,1,1,0,0,0,100000,100000,-\n",
        ),
    ),
    (NO_WORDS, (&[], 0, 2, "usage\n")),
];
