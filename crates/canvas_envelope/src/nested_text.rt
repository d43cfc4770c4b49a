//! The text of a body that a place carries.

ghost use Rattle.std.specs.Prelude.{◌≡◌, ◌∷◌, [], ◌++◌, IfOk, OnOk, IfSome, map, string_bytes};
ghost use Rattle.canvas_semantics.specs.PlacedLine.{PPlace};
ghost use Rattle.canvas_envelope.specs.SharedTexts.{SaysCarried, carried_bytes, core_of, inner_place, ring_view, ringed, rings_of};

use std::alloc::{AllocError, Global};
use std::sync::Arc;

/// The text around another text.
#[derive(Drop)]
pub struct Ring {
    /// The part before it.
    pub before: Arc<String>,
    /// The part after it.
    pub behind: Arc<String>,
}

/// The text of a carried body. If the end of the body carries a body too, the text of that one is
/// nested in it and is shared. The nesting is a list of rings around a core, and not a tree.
#[derive(Drop)]
pub struct CarriedText {
    /// The rings around the core, the outermost first.
    pub rings: Vec<Ring>,
    /// The text of the innermost body.
    pub core: Arc<String>,
}

impl Ring {
    fn of(alloc: Global, before: String, behind: String) -> Result<Ring, AllocError>
        ensures { IfOk result (λ r. ring_view r ≡ (string_bytes before, string_bytes behind)) }
    {
        Ok(Ring {
            before: Arc::new(alloc, before)?,
            behind: Arc::new(alloc, behind)?,
        })
    }

    fn share(&self) -> Result<Ring, AllocError>
        ensures { IfOk result (λ r. ring_view r ≡ ring_view self.now) }
    {
        Ok(Ring {
            before: Arc::try_clone(&self.before)?,
            behind: Arc::try_clone(&self.behind)?,
        })
    }
}

/// Appends handles to the same rings.
fn share_rings(outer: Vec<Ring>, rings: &[Ring]) -> Result<Vec<Ring>, AllocError>
    ensures { IfOk result
        (λ all. map ring_view all.items ≡ map ring_view outer.items ++ map ring_view rings.now) }
{
    let mut all = outer;
    for ring in rings {
        all.push(ring.share()?)?;
    }
    Ok(all)
}

/// Appends the core with the rings around it.
fn put_ringed(out: &mut Vec<u8>, rings: &[Ring], core: &str) -> Result<(), AllocError>
    ensures { OnOk result
        (out.new.items ≡ out.old.items ++ ringed (map ring_view rings.now) core.now) }
{
    match rings.split_first() {
        Some((ring, inner)) => {
            out.extend_from_slice(ring.before.as_bytes())?;
            put_ringed(out, inner, core)?;
            out.extend_from_slice(ring.behind.as_bytes())
        }
        None => out.extend_from_slice(core.as_bytes()),
    }
}

/// Returns the length of rings, in bytes.
fn rings_room(rings: &[Ring]) -> usize {
    let mut room: usize = 0;
    for ring in rings {
        room = room
            .saturating_add(ring.before.len())
            .saturating_add(ring.behind.len());
    }
    room
}

impl CarriedText {
    /// Makes a text that contains no other.
    pub fn alone(alloc: Global, text: String) -> Result<CarriedText, AllocError>
        ensures rings { IfOk result (λ t. rings_of t ≡ []) }
        ensures core { IfOk result (λ t. core_of t ≡ string_bytes text) }
    {
        Ok(CarriedText {
            rings: Vec::new(alloc),
            core: Arc::new(alloc, text)?,
        })
    }

    /// Makes a text of the core, with the outer rings around shared ones.
    fn within(
        outer: Vec<Ring>,
        rings: &[Ring],
        core: &Arc<String>,
    ) -> Result<CarriedText, AllocError>
        ensures rings { IfOk result (λ t.
            rings_of t ≡ map ring_view outer.items ++ map ring_view rings.now) }
        ensures core { IfOk result (λ t. core_of t ≡ string_bytes core.now.value) }
    {
        let core = Arc::try_clone(core)?;
        let rings = share_rings(outer, rings)?;
        Ok(CarriedText { rings, core })
    }

    /// Makes a text around another, which the two share.
    pub fn around(
        alloc: Global,
        before: String,
        inner: &CarriedText,
        behind: String,
    ) -> Result<CarriedText, AllocError>
        ensures rings { IfOk result (λ t. rings_of t
            ≡ (string_bytes before, string_bytes behind) ∷ rings_of inner.now) }
        ensures core { IfOk result (λ t. core_of t ≡ core_of inner.now) }
    {
        let ring = Ring::of(alloc, before, behind)?;
        let mut rings = Vec::with_capacity(alloc, inner.rings.len().saturating_add(1))?;
        rings.push(ring)?;
        CarriedText::within(rings, &inner.rings, &inner.core)
    }

    /// Returns the text that is nested in it, if there is one: that of the body that the end of the
    /// body carries.
    pub fn inner(&self, alloc: Global) -> Result<Option<Arc<CarriedText>>, AllocError>
        ensures { IfOk result (λ o. IfSome o (λ t. (p : PPlace)
            → SaysCarried self.now p → SaysCarried t.value (inner_place p))) }
    {
        match self.rings.split_first() {
            Some((_outer, others)) => {
                let rings = Vec::with_capacity(alloc, others.len())?;
                let text = CarriedText::within(rings, others, &self.core)?;
                Ok(Some(Arc::new(alloc, text)?))
            }
            None => Ok(None),
        }
    }

    /// Appends the text.
    pub(crate) fn put(&self, out: &mut Vec<u8>) -> Result<(), AllocError>
        ensures { OnOk result (out.new.items ≡ out.old.items ++ carried_bytes self.now) }
    {
        put_ringed(out, &self.rings, &self.core)
    }

    /// Returns the length of the text, in bytes.
    pub(crate) fn room(&self) -> usize {
        rings_room(&self.rings).saturating_add(self.core.len())
    }
}
