//! Files, some in parts.

/// Two nodes, one link and the path along it: the smallest certificate.
pub const SMALLEST: &str =
    "yates-ratio 1\nnodes 2\na\nb\nlinks 1\n0 1 10 1\npairs 1\n0 1 1\n1000000 1 0\nset all\nratio 1000000\nblocks 1\n0 1000000 1 1\n1\n0 0 1\nend\n";

/// The smallest certificate up to its set, and from its blocks on.
pub const SMALLEST_HEAD: &str =
    "yates-ratio 1\nnodes 2\na\nb\nlinks 1\n0 1 10 1\npairs 1\n0 1 1\n1000000 1 0\nset all\n";

const SMALLEST_END: &str = "blocks 1\n0 1000000 1 1\n1\n0 0 1\nend\n";

/// Its ratio is too low.
pub const SMALLEST_WITH_LESS: &[&str] = &[SMALLEST_HEAD, "ratio 999999\n", SMALLEST_END];

pub const LEADING_ZERO: &[&str] = &[SMALLEST_HEAD, "ratio 01000000\n", SMALLEST_END];

/// Two nodes have one name.
pub const TWICE_A_NAME: &[&str] = &[
    "yates-ratio 1\nnodes 2\na\na\nlinks 1\n0 1 10 1\npairs 1\n0 1 1\n1000000 1 0\nset all\nratio 1000000\n",
    SMALLEST_END,
];

/// The smallest certificate in the second format.
pub const SMALLEST_IN_SECOND: &str =
    "yates-ratio 2\nnodes 2\na\nb\nlinks 1\n0 1 10 1\npairs 1\n0 1 1\n1000000 1 0\nset all\nratio 1000000\nblocks 1\n0 1000000 1 1\n1\n0 0 1\nend\n";

/// The smallest certificate for a box.
pub const SMALL_BOX: &str =
    "yates-ratio 2\nnodes 2\na\nb\nlinks 1\n0 1 10 1\npairs 1\n0 1 1\n1000000 1 0\nset box\nlower 3\nupper 5\nratio 1000000\nblocks 1\n0 1000000 1 1\n1\n0 0 1\nplus 0\nminus 0\nend\n";

const WITNESS_MATRIX: &str = "demand 1000000\n1\n1000000 1 0\n";

/// A witness of the smallest certificate: one with its bound, one whose bound is too high, one whose scale is over 0, and one without
/// its end.
pub const WITNESS: &[&str] = &[
    "yates-witness 1\nbound 1000000\nscale 1 1\n",
    WITNESS_MATRIX,
    "end\n",
];

pub const WITNESS_OF_MORE: &[&str] = &[
    "yates-witness 1\nbound 1000001\nscale 1 1\n",
    WITNESS_MATRIX,
    "end\n",
];

pub const WITNESS_OVER_ZERO: &[&str] = &[
    "yates-witness 1\nbound 1000000\nscale 1 0\n",
    WITNESS_MATRIX,
    "end\n",
];

pub const UNENDED_WITNESS: &[&str] = &[
    "yates-witness 1\nbound 1000000\nscale 1 1\n",
    WITNESS_MATRIX,
];

/// A link from a to b, and links from a to b and from b to c.
pub const LINK: &str = "source,target,capacity,cost\na,b,10,1\n";

pub const LINE: &str = "source,target,capacity,cost\na,b,10,1\nb,c,10,1\n";

/// A demand from a to b.
pub const DEMAND: &str = "step,source,target,demand\n0,a,b,1\n";

/// No pair at all.
pub const NO_DEMANDS: &str = "step,source,target,demand\n";

/// The rates of the smallest certificate for this demand, where no link fails.
pub const RATES: &str = "yates-rates 1\nfailures 0\n1 1\nend\n";

/// A hose of two nodes, and its certificate for the smallest certificate's routing, which fills its link.
pub const BOUNDS: &str = "yates-bounds 1\nsent 40 0\nreceived 0 10\nend\n";

pub const HOSE: &str =
    "yates-hose 1\nsent 40 0\nreceived 0 10\nbound 1000000\nblocks 1\nlink 0\ntails 0 0\nheads 0 1000000\nend\n";

/// A plan of what is published, and the same for the envelope of the steps.
pub const SPF: &str = "{\"topology\":\"t\",\"matrices\":\"m\",\"publish\":\"spf\"}";

pub const ENVELOPE: &str =
    "{\"topology\":\"t\",\"matrices\":\"m\",\"publish\":\"spf\",\"envelope\":true}";

/// A plan of what is compared, with failures.
pub const PLAN: &str =
    "{\"topology\":\"t\",\"matrices\":\"m\",\"failures\":\"f\",\"schemes\":[\"spf\"]}";

/// A link from s to t, a way over x, and a way of three links over y and x.
pub const WAYS: &str =
    "source,target,capacity,cost\ns,t,10,1\ns,x,10,1\nx,t,10,1\ns,y,3,3\ny,x,3,3\n";

/// A demand of 12 from s to t in two steps.
pub const TWELVE: &str = "step,source,target,demand\n0,s,t,12\n1,s,t,12\n";

/// The link from s to x fails in the second step.
pub const FAILURE: &str = "from,to,link\n1,1,1\n";
