//! A pass: one caller's handle on the broker.
use crate::item::Item;
use crate::rule::OneHistory;
use crate::view::View;
use canvas_envelope::Envelope;
use crossbeam_queue::{RuledSegQueue, SegPass};
use std::marker::Model;

pub(crate) type Queue<T> = RuledSegQueue<Item<T>, View<T>, OneHistory>;

/// The view that one caller has of the broker's history, with its own calls in it. It has no bytes.
/// A pass that is dropped, and not joined, stays a live caller of the history.
#[derive(Drop)]
pub struct BrokerPass<T = Envelope> {
    pub(crate) pass: SegPass<Item<T>, View<T>>,
}

impl<T> Model for BrokerPass<T> {
    ghost use Rattle.std.specs.Prelude.{◌≡◌, None};
    ghost use Rattle.canvas_history.specs.Passes.{Pass};
    ghost use Rattle.canvas_broker.specs.steps.Rule.{IsReady};

    ghost Value = { Pass T };

    ghost view = { λ p. record {
      of = p.pass.web;
      name = p.pass.me.view.client.knows.name;
      mine = p.pass.me.view.client.knows.mine;
      seen = p.pass.me.view.client.knows.seen;
      owed = p.pass.me.view.client.knows.owed;
    } };

    ghost invariant = { λ p. (p.pass.me.hand ≡ None) × (p.pass.me.spare ≡ None)
        × IsReady p.pass.me.view.client };
}
