//! What a network is to carry, and what its schemes are given of it.

use crate::pair_union::pairs_of_either;
use crate::series::Series;
use crate::series_over::series_over;
use std::alloc::Global;
use te_model::Memory;

/// The matrices that a network is to carry, and what its schemes are given of them.
#[derive(Drop)]
pub struct Traffic {
    /// The matrices that are sent.
    pub sent: Series,
    /// The matrices that schemes are given in their place, over the same pairs and as many steps, if any are predicted.
    pub predicted: Option<Series>,
}

impl Traffic {
    ghost use Rattle.std.specs.Prelude.{◌≡◌, ◌≤◌, IfOk, IfSome};
    ghost use Rattle.te_model.specs.declared.limits.TheConstants.{FORMAT_2};
    ghost use Rattle.traffic_matrix.specs.Limits.{IsSeries};
    ghost use Rattle.traffic_matrix.specs.Traffic.{IsTraffic, known_traffic, predicted_traffic, traffic_of};

    /// The matrices that are sent, which schemes are given too.
    pub fn known(sent: Series) -> Traffic
        ensures { result ≡ known_traffic sent }
    {
        Traffic {
            sent,
            predicted: None,
        }
    }

    // The matrices that are sent, in whose place schemes are given the predictions: both over the pairs of either.
    fn with_predictions(
        alloc: Global,
        nodes: usize,
        sent: &Series,
        predictions: &Series,
    ) -> Result<Traffic, Memory>
        requires nodes { nodes ≤ FORMAT_2.nodes }
        requires sent { IsSeries nodes sent.now }
        requires predictions { IsSeries nodes predictions.now }
        ensures traffic { IfOk result (λ t. t ≡ predicted_traffic nodes sent.now predictions.now) }
    {
        let count = sent.steps.as_slice().len();
        let own = sent.pairs.list.as_slice();
        let pairs = pairs_of_either(alloc, nodes, own, predictions.pairs.list.as_slice())?;
        let predicted = series_over(alloc, pairs.as_slice(), count, predictions)?;
        Ok(Traffic {
            sent: series_over(alloc, pairs.as_slice(), count, sent)?,
            predicted: Some(predicted),
        })
    }

    /// The matrices that are sent, in whose place schemes are given the predictions, where there are some.
    ///
    /// With predictions both are taken over the pairs of either, between `nodes` nodes: a pair or a step that one of them does not have
    /// has no demand there, and predictions for more steps than are sent are left out. The only error is `Memory`, where memory is
    /// wanting.
    pub fn of(
        alloc: Global,
        nodes: usize,
        sent: Series,
        predictions: Option<Series>,
    ) -> Result<Traffic, Memory>
        requires nodes { nodes ≤ FORMAT_2.nodes }
        requires sent { IsSeries nodes sent }
        requires predictions { IfSome predictions (IsSeries nodes) }
        ensures traffic { IfOk result (λ t. t ≡ traffic_of nodes sent predictions) }
        ensures in_range { IfOk result (IsTraffic nodes) }
    {
        match predictions {
            None => Ok(Traffic::known(sent)),
            Some(predictions) => Traffic::with_predictions(alloc, nodes, &sent, &predictions),
        }
    }
}
