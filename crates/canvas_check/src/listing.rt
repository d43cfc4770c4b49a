//! The signatures of a text, in file order.

ghost use Rattle.std.specs.Prelude.{◌≡◌, ◌≤◌, ◌∷◌, [], false, map, OnOk, IfOk};
ghost use Rattle.serde_json.specs.Data.{depth};
ghost use Rattle.canvas_sig.specs.Datum.{view, value_at};
ghost use Rattle.canvas_check.specs.FileOrder.{behind, itself, in_each, inside, in_kwargs, from_index, one_in, some_in, sighted_within, signatures};
ghost use Rattle.canvas_check.specs.Places.{shown, Lists};

use crate::step::{Field, Step};
use canvas_sig::parts::{Datum, kwarg_of, listed, option_of, primitive_of};
use canvas_values::Primitive;
use std::alloc::{AllocError, Global};

/// A signature of a text, and the steps that lead to it.
#[derive(Drop)]
pub(crate) struct Place<'v> {
    pub(crate) steps: Vec<Step>,
    /// Whether it is a link or an error callback.
    pub(crate) is_linked: bool,
    pub(crate) value: &'v Datum<'v>,
}

/// The signatures listed so far, and the steps to the current signature. After an error it is
/// discarded.
#[derive(Drop)]
struct Listing<'v> {
    places: Vec<Place<'v>>,
    steps: Vec<Step>,
}

impl<'v> Listing<'v> {
    /// Lists a signature and those nested in it, at most `left` deep.
    #[cycle(listing)]
    fn list(
        &mut self,
        alloc: Global,
        value: &'v Datum<'v>,
        is_linked: bool,
        left: u32,
    ) -> Result<(), AllocError>
        ensures { OnOk result
            (Lists (sighted_within left is_linked (view value.entry.now)) self.old self.new) }
    {
        self.push(alloc, value, is_linked)?;
        if left == 0 {
            return Ok(());
        }
        self.list_inside(alloc, value, left - 1)
    }

    /// Lists a signature, without those nested in it.
    fn push(
        &mut self,
        alloc: Global,
        value: &'v Datum<'v>,
        is_linked: bool,
    ) -> Result<(), AllocError>
        ensures { OnOk result
            (Lists (itself is_linked (view value.entry.now) ∷ []) self.old self.new) }
    {
        let steps = Vec::from_slice(alloc, &self.steps)?;
        self.places.push(Place {
            steps,
            is_linked,
            value,
        })?;
        Ok(())
    }

    #[cycle(listing)]
    fn list_inside(
        &mut self,
        alloc: Global,
        value: &'v Datum<'v>,
        left: u32,
    ) -> Result<(), AllocError>
        ensures { OnOk result
            (Lists (inside (sighted_within left) (view value.entry.now)) self.old self.new) }
    {
        self.list_kwargs(alloc, value, primitive_of(value.get("subtask_type")), left)?;
        self.list_some(alloc, Field::Links, option_of(value, "link"), true, left)?;
        self.list_some(
            alloc,
            Field::Errbacks,
            option_of(value, "link_error"),
            true,
            left,
        )
    }

    #[cycle(listing)]
    fn list_kwargs(
        &mut self,
        alloc: Global,
        value: &'v Datum<'v>,
        primitive: Option<Primitive>,
        left: u32,
    ) -> Result<(), AllocError>
        ensures { OnOk result
            (Lists (in_each (sighted_within left false) (in_kwargs primitive (view value.entry.now)))
            self.old self.new) }
    {
        match primitive {
            Some(Primitive::Chain) => {
                let elements = listed(kwarg_of(value, "tasks"));
                self.list_all(alloc, Field::Elements, elements, false, left)
            }
            Some(Primitive::Group) => {
                let members = listed(kwarg_of(value, "tasks"));
                self.list_all(alloc, Field::Members, members, false, left)
            }
            Some(Primitive::Chord) => {
                self.list_some(alloc, Field::Header, kwarg_of(value, "header"), false, left)?;
                self.list_one(alloc, Field::Body, kwarg_of(value, "body"), false, left)
            }
            _ => Ok(()),
        }
    }

    /// Lists the signatures of a member that is a list, a single signature or null.
    #[cycle(listing)]
    fn list_some(
        &mut self,
        alloc: Global,
        field: Field,
        found: Option<&'v Datum<'v>>,
        is_linked: bool,
        left: u32,
    ) -> Result<(), AllocError>
        ensures { OnOk result
            (Lists (in_each (sighted_within left is_linked) (some_in field (value_at found.entry)))
            self.old self.new) }
    {
        match found {
            None => Ok(()),
            Some(value) => self.list_one_or_more(alloc, field, value, is_linked, left),
        }
    }

    #[cycle(listing)]
    fn list_one_or_more(
        &mut self,
        alloc: Global,
        field: Field,
        value: &'v Datum<'v>,
        is_linked: bool,
        left: u32,
    ) -> Result<(), AllocError>
        ensures { OnOk result
            (Lists (in_each (sighted_within left is_linked) (some_in field (view value.entry.now)))
            self.old self.new) }
    {
        match value {
            Datum::List(values) => self.list_all(alloc, field, values, is_linked, left),
            _ => self.list_one(alloc, field, Some(value), is_linked, left),
        }
    }

    /// Lists the signature of a member, if there is one.
    #[cycle(listing)]
    fn list_one(
        &mut self,
        alloc: Global,
        field: Field,
        found: Option<&'v Datum<'v>>,
        is_linked: bool,
        left: u32,
    ) -> Result<(), AllocError>
        ensures { OnOk result
            (Lists (in_each (sighted_within left is_linked) (one_in field (value_at found.entry)))
            self.old self.new) }
    {
        match found {
            None | Some(Datum::Null) => Ok(()),
            Some(value) => {
                let step = Step { field, index: None };
                self.list_at(alloc, step, value, is_linked, left)
            }
        }
    }

    #[cycle(listing)]
    fn list_all(
        &mut self,
        alloc: Global,
        field: Field,
        values: &'v [Datum<'v>],
        is_linked: bool,
        left: u32,
    ) -> Result<(), AllocError>
        ensures { OnOk result (Lists (in_each (sighted_within left is_linked)
            (from_index field 0 (map view values.entry.now))) self.old self.new) }
    {
        for (index, value) in values.iter().enumerate() {
            let step = Step {
                field,
                index: Some(index),
            };
            self.list_at(alloc, step, value, is_linked, left)?;
        }
        Ok(())
    }

    #[cycle(listing)]
    fn list_at(
        &mut self,
        alloc: Global,
        step: Step,
        value: &'v Datum<'v>,
        is_linked: bool,
        left: u32,
    ) -> Result<(), AllocError>
        ensures { OnOk result (Lists
            (map (behind (step ∷ [])) (sighted_within left is_linked (view value.entry.now)))
            self.old self.new) }
    {
        self.steps.push(step)?;
        self.list(alloc, value, is_linked, left)?;
        self.steps.pop();
        Ok(())
    }
}

/// Returns the signatures of a text, in file order. Arrays and objects in it nest at most `left`
/// deep.
pub(crate) fn places_of<'v>(
    alloc: Global,
    value: &'v Datum<'v>,
    left: u32,
) -> Result<Vec<Place<'v>>, AllocError>
    requires { depth (view value.now) ≤ left }
    ensures { IfOk result
        (λ places. map shown places.items ≡ signatures (view value.entry.now)) }
{
    let mut listing = Listing {
        places: Vec::new(alloc),
        steps: Vec::new(alloc),
    };
    listing.list(alloc, value, false, left)?;
    Ok(listing.places)
}
