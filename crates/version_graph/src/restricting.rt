//! An instance of some packages and states of another.
ghost use Rattle.std.specs.Prelude.{◌≡◌, ◌<◌, ◌≤◌, ℕ, true, length, sum, slice_index, slice_index_or, replicate, None, IfOk, OnOk};
ghost use Rattle.version_graph.specs.Graph.{packages, is_barred, is_forbidden};
ghost use Rattle.version_graph.specs.Part.{package_of, states_of, IsPartOf, IsRestrictedTo};
ghost use Rattle.version_graph.specs.Copied.{is_barred_at, is_forbidden_at, HasPlaces, ArePlaces, Copies};

use crate::building::InstanceBuilder;
use crate::graph::Instance;
use crate::state_map::StateMap;
use std::alloc::{AllocError, Global};

impl Instance {
    /// The instance of the packages and states of the part, in their order, in which is forbidden what is
    /// forbidden among them here. It is no greater than this one, so no limit is tested. The one error is
    /// want of memory.
    pub fn restricted(&self, alloc: Global, part: &StateMap) -> Result<Instance, AllocError>
        requires { IsPartOf self.now part.now }
        ensures { IfOk result (λ instance. IsRestrictedTo self.now part.now instance) }
    {
        let sizes = self.sizes_of(alloc, part)?;
        let places = self.places_of(alloc, part)?;
        let mut builder = InstanceBuilder::blank(alloc, sizes.as_slice())?;
        for p in 0..builder.packages() {
            self.copy_states(part, p, &mut builder);
            self.copy_pairs(part, places.as_slice(), p, &mut builder)?;
        }
        builder.joined(alloc)
    }

    /// How many states each package of the part has.
    fn sizes_of(&self, alloc: Global, part: &StateMap) -> Result<Vec<u32>, AllocError>
        requires { IsPartOf self.now part.now }
        ensures each { IfOk result (λ sizes. length sizes.items ≡ length part.now) }
        ensures sizes { IfOk result (λ sizes. (p : ℕ) → p < length part.now → slice_index sizes.items p ≡ length (states_of part.now p)) }
        ensures few { IfOk result (λ sizes. length sizes.items ≤ 4096) }
        ensures small { IfOk result (λ sizes. sum sizes.items ≤ 65536) }
    {
        // what is true of this instance bounds the part
        let _packages = self.packages();
        let mut sizes = Vec::new(alloc);
        for p in 0..part.count() {
            sizes.push(part.width(p) as u32)?;
        }
        Ok(sizes)
    }

    /// For each package of this instance its place in the part, where it has one.
    fn places_of(&self, alloc: Global, part: &StateMap) -> Result<Vec<Option<u32>>, AllocError>
        requires { IsPartOf self.now part.now }
        ensures { IfOk result (λ places. ArePlaces self.now part.now (length part.now) places.items) }
    {
        let mut places = no_places(alloc, self.packages())?;
        for p in 0..part.count() {
            let place = p as u32;
            let number = part.package(place) as usize;
            places[number] = Some(place);
        }
        Ok(places)
    }

    /// Forbids the states of the package in the place p that are forbidden alone.
    fn copy_states(&self, part: &StateMap, p: u32, builder: &mut InstanceBuilder)
        requires part { IsPartOf self.now part.now }
        requires made { HasPlaces part.now builder.old }
        requires known { p < length part.now }
        ensures copies { Copies self.now part.now builder.old builder.new }
        ensures here { (i : ℕ) → i < length (states_of part.now p) → is_barred_at self.now part.now p i ≡ true → is_barred builder.new p i ≡ true }
    {
        for i in 0..builder.states(p) {
            self.copy_state(part, p, i, builder);
        }
    }

    /// Forbids the state in that place if it is forbidden alone.
    fn copy_state(&self, part: &StateMap, p: u32, i: u32, builder: &mut InstanceBuilder)
        requires part { IsPartOf self.now part.now }
        requires made { HasPlaces part.now builder.old }
        requires known { p < length part.now }
        requires state { i < length (states_of part.now p) }
        ensures copies { Copies self.now part.now builder.old builder.new }
        ensures here { is_barred_at self.now part.now p i ≡ true → is_barred builder.new p i ≡ true }
    {
        if !self.is_offered(part.package(p), part.state(p, i)) {
            builder.forbid_state(p, i);
        }
    }

    /// Forbids what is forbidden between the package in the place p and those before it.
    fn copy_pairs(
        &self,
        part: &StateMap,
        places: &[Option<u32>],
        p: u32,
        builder: &mut InstanceBuilder,
    ) -> Result<(), AllocError>
        requires part { IsPartOf self.now part.now }
        requires places { ArePlaces self.now part.now (length part.now) places.now }
        requires made { HasPlaces part.now builder.old }
        requires known { p < length part.now }
        ensures copies { OnOk result (Copies self.now part.now builder.old builder.new) }
        ensures here { OnOk result ((i q j : ℕ) → q < p → i < length (states_of part.now p) → j < length (states_of part.now q) →
            is_forbidden_at self.now part.now p i q j ≡ true → is_forbidden builder.new p i q j ≡ true) }
    {
        let near = self.neighbours(part.package(p));
        for q in near {
            self.copy_near(part, places, p, *q, builder)?;
        }
        Ok(())
    }

    /// Forbids what is forbidden between the package in the place p and the package q of this instance, if this has a
    /// place before p.
    fn copy_near(
        &self,
        part: &StateMap,
        places: &[Option<u32>],
        p: u32,
        q: u32,
        builder: &mut InstanceBuilder,
    ) -> Result<(), AllocError>
        requires part { IsPartOf self.now part.now }
        requires places { ArePlaces self.now part.now (length part.now) places.now }
        requires made { HasPlaces part.now builder.old }
        requires known { p < length part.now }
        requires near { q < packages self.now }
        ensures copies { OnOk result (Copies self.now part.now builder.old builder.new) }
        ensures here { OnOk result ((k i j : ℕ) → k < p → package_of part.now k ≡ q → i < length (states_of part.now p) → j < length (states_of part.now k) →
            is_forbidden_at self.now part.now p i k j ≡ true → is_forbidden builder.new p i k j ≡ true) }
    {
        match place_at(places, q) {
            Some(place) => self.copy_block(part, p, place, builder),
            None => Ok(()),
        }
    }

    /// Forbids what is forbidden between the packages in the places p and q, if q is before p.
    fn copy_block(
        &self,
        part: &StateMap,
        p: u32,
        q: u32,
        builder: &mut InstanceBuilder,
    ) -> Result<(), AllocError>
        requires part { IsPartOf self.now part.now }
        requires made { HasPlaces part.now builder.old }
        requires known { p < length part.now }
        requires second { q < length part.now }
        ensures copies { OnOk result (Copies self.now part.now builder.old builder.new) }
        ensures here { OnOk result ((i j : ℕ) → q < p → i < length (states_of part.now p) → j < length (states_of part.now q) →
            is_forbidden_at self.now part.now p i q j ≡ true → is_forbidden builder.new p i q j ≡ true) }
    {
        if p <= q {
            return Ok(());
        }
        for i in 0..builder.states(p) {
            self.copy_row(part, p, i, q, builder)?;
        }
        Ok(())
    }

    /// Forbids what is forbidden between the state in the place i of p and the package in the place q.
    fn copy_row(
        &self,
        part: &StateMap,
        p: u32,
        i: u32,
        q: u32,
        builder: &mut InstanceBuilder,
    ) -> Result<(), AllocError>
        requires part { IsPartOf self.now part.now }
        requires made { HasPlaces part.now builder.old }
        requires known { p < length part.now }
        requires state { i < length (states_of part.now p) }
        requires below { q < p }
        ensures copies { OnOk result (Copies self.now part.now builder.old builder.new) }
        ensures here { OnOk result ((j : ℕ) → j < length (states_of part.now q) →
            is_forbidden_at self.now part.now p i q j ≡ true → is_forbidden builder.new p i q j ≡ true) }
    {
        for j in 0..builder.states(q) {
            self.copy_pair(part, p, i, q, j, builder)?;
        }
        Ok(())
    }

    /// Forbids the states in those places together if they are.
    fn copy_pair(
        &self,
        part: &StateMap,
        p: u32,
        i: u32,
        q: u32,
        j: u32,
        builder: &mut InstanceBuilder,
    ) -> Result<(), AllocError>
        requires part { IsPartOf self.now part.now }
        requires made { HasPlaces part.now builder.old }
        requires known { p < length part.now }
        requires state { i < length (states_of part.now p) }
        requires below { q < p }
        requires second_state { j < length (states_of part.now q) }
        ensures copies { OnOk result (Copies self.now part.now builder.old builder.new) }
        ensures here { OnOk result (is_forbidden_at self.now part.now p i q j ≡ true → is_forbidden builder.new p i q j ≡ true) }
    {
        if !self.allowed(
            part.package(p),
            part.state(p, i),
            part.package(q),
            part.state(q, j),
        ) {
            builder.add_pair(p, i, q, j)?;
        }
        Ok(())
    }
}

/// The place of the package q.
fn place_at(places: &[Option<u32>], q: u32) -> Option<u32>
    requires { q < length places.now }
    ensures { result ≡ slice_index_or places.now q None }
{
    places[q as usize]
}

/// As many places as are asked for, all of them none.
fn no_places(alloc: Global, count: u32) -> Result<Vec<Option<u32>>, AllocError>
    ensures { IfOk result (λ places. places.items ≡ replicate count None) }
{
    vec![in alloc; None; count as usize]
}
