//! The attributes of a record by their codes.
//!
//! A record may be given one setting or thousands: a few are made in their places, and many in one
//! pass over the attributes.

ghost use Rattle.std.specs.Prelude.{◌≡◌, ◌+◌, ◌<◌, ◌≤◌, IfOk, IfErr, OnOk, OnErr, length, nat_eq, ◌∷◌, []};
ghost use Rattle.std.specs.Option.{option_copied};
ghost use Rattle.std.specs.List.{HoldsAt};
ghost use Rattle.std.specs.List.Sorted.{IsPartitionPoint, IsSearchInRange};
ghost use Rattle.std.specs.Ordering.{nat_cmp};
ghost use Rattle.std.specs.declared.cmp.Ordering.TheVariants.{Less, Equal, Greater};
ghost use Rattle.std.specs.Cmp.Lexicographic.{pointwise};
ghost use Rattle.std.specs.Vec.{vec_len, vec_capacity};
ghost use Rattle.std.specs.VecDeque.{deque_len};
ghost use Rattle.std.specs.FinMap as map;
ghost use Rattle.chart_model.specs.Attrs.{AreRising, attrs_of, are_attributes, keeps_first, attrs_after};
ghost use Rattle.chart_model.specs.Attrs.{set_attr, set_attrs, texts_by_code};

use crate::octets::Octets;
use crate::record::Attr;
use std::alloc::{AllocError, Global};
use std::collections::VecDeque;
use std::marker::Model;
use std::mem;

/// The text that removes an attribute: the delete character alone (S-57 Part 3).
const DELETED: [u8; 1] = [0x7F];

/// The most settings that are made in their places, where each may move all attributes behind its own: so many cost
/// less than a pass over all attributes.
pub const MOST_SET_IN_PLACE: usize = 32;

/// Attributes by code. Contracts see a finite map from codes to texts.
///
/// Records have few attributes, so these stand in one block, in the order of their codes.
#[derive(Debug, Drop)]
pub struct AttrMap {
    attrs: Vec<Attr>,
}

impl Model for AttrMap {
    ghost use Rattle.std.specs.Prelude.{List, ℕ};
    ghost use Rattle.std.specs.Coded.{coded_list, coded_ℕ};
    ghost use Rattle.std.specs.Ordering.{nat_cmp};
    ghost use Rattle.std.specs.FinMap as map;
    ghost use Rattle.chart_model.specs.Attrs.{AreRising, attrs_of};

    ghost Value = { map.FinMap nat_cmp (List ℕ) };

    ghost coded = { map.code coded_ℕ (coded_list coded_ℕ) };

    ghost view = { λ a. attrs_of a.attrs.items };

    ghost invariant = { λ a. AreRising a.attrs.items };
}

/// Where the attribute with a code stands, or where it would have to stand.
fn place_of(attrs: &[Attr], code: u16) -> Result<usize, usize>
    requires { AreRising attrs.now }
    ensures bound { IsSearchInRange result (length attrs.now) }
    ensures found { IfOk result (HoldsAt (λ attr. nat_cmp attr.code code ≡ Equal) attrs.now) }
    ensures parted { IfErr result
        (IsPartitionPoint (λ attr. nat_cmp attr.code code ≡ Less)
        (λ attr. nat_cmp attr.code code ≡ Greater) attrs.now) }
{
    attrs.binary_search_by_key(&code, |attr| attr.code)
}

/// Puts a text under a code, in place of what is there. It takes no memory.
fn put_text(attrs: &mut Vec<Attr>, code: u16, value: Octets)
    requires rising { AreRising attrs.old.items }
    requires room { vec_len attrs.old < vec_capacity attrs.old }
    ensures map { attrs_of attrs.new.items ≡ map.insert (attrs_of attrs.old.items) code value }
    ensures rising { AreRising attrs.new.items }
    ensures len { vec_len attrs.new ≤ vec_len attrs.old + 1 }
    ensures capacity { vec_capacity attrs.old ≤ vec_capacity attrs.new }
{
    match place_of(attrs.as_slice(), code) {
        Ok(place) => attrs[place] = Attr { code, value },
        Err(place) => match attrs.insert(place, Attr { code, value }) {
            Ok(()) => {}
            Err(_) => unreachable!(),
        },
    }
}

/// Puts a text under a code, in place of what is there. Where there is no memory nothing changes.
fn set_text(attrs: &mut Vec<Attr>, code: u16, value: Octets) -> Result<(), AllocError>
    requires { AreRising attrs.old.items }
    ensures map { OnOk result (attrs_of attrs.new.items ≡ map.insert (attrs_of attrs.old.items) code value) }
    ensures rising { AreRising attrs.new.items }
    ensures err { OnErr result (attrs.new.items ≡ attrs.old.items) }
{
    match place_of(attrs.as_slice(), code) {
        Ok(place) => attrs[place] = Attr { code, value },
        Err(place) => attrs.insert(place, Attr { code, value })?,
    }
    Ok(())
}

/// Takes out the attribute with a code. It takes no memory.
fn take_text(attrs: &mut Vec<Attr>, code: u16) -> Option<Octets>
    requires { AreRising attrs.old.items }
    ensures value { result ≡ map.get (attrs_of attrs.old.items) code }
    ensures map { attrs_of attrs.new.items ≡ map.remove (attrs_of attrs.old.items) code }
    ensures rising { AreRising attrs.new.items }
    ensures len { vec_len attrs.new ≤ vec_len attrs.old }
    ensures capacity { vec_capacity attrs.old ≤ vec_capacity attrs.new }
{
    match place_of(attrs.as_slice(), code) {
        Ok(place) => Some(attrs.remove(place).value),
        Err(_) => None,
    }
}

/// Whether a setting removes its attribute.
fn removes(setting: &Attr) -> bool
    ensures { result ≡ pointwise nat_eq setting.now.value (0x7F ∷ []) }
{
    setting.value.as_slice() == DELETED.as_slice()
}

/// Sets or removes one attribute. It takes no memory.
fn set_one(attrs: &mut Vec<Attr>, setting: Attr)
    requires rising { AreRising attrs.old.items }
    requires room { vec_len attrs.old < vec_capacity attrs.old }
    ensures map { attrs_of attrs.new.items ≡ set_attr (attrs_of attrs.old.items) setting }
    ensures rising { AreRising attrs.new.items }
    ensures len { vec_len attrs.new ≤ vec_len attrs.old + 1 }
    ensures capacity { vec_capacity attrs.old ≤ vec_capacity attrs.new }
{
    if removes(&setting) {
        let _ = take_text(attrs, setting.code);
    } else {
        put_text(attrs, setting.code, setting.value);
    }
}

/// Sets or removes attributes one after the other. It takes no memory.
fn set_each(attrs: &mut Vec<Attr>, settings: Vec<Attr>)
    requires rising { AreRising attrs.old.items }
    requires room { vec_len attrs.old + vec_len settings ≤ vec_capacity attrs.old }
    ensures map { attrs_of attrs.new.items ≡ set_attrs (attrs_of attrs.old.items) settings.items }
    ensures rising { AreRising attrs.new.items }
{
    for setting in settings {
        set_one(attrs, setting);
    }
}

/// Whether the next in turn is an attribute: it comes before the settings of its code and of higher codes.
fn keeps_first(kept: &VecDeque<Attr>, given: &VecDeque<Attr>) -> bool
    ensures { result ≡ keeps_first kept.now.items given.now.items }
{
    match (kept.front(), given.front()) {
        (Some(attr), Some(setting)) => attr.code <= setting.code,
        (Some(_), None) => true,
        (None, _) => false,
    }
}

/// Puts the attribute, or does the setting, that is next in turn. It takes no memory.
fn step(attrs: &mut Vec<Attr>, kept: &mut VecDeque<Attr>, given: &mut VecDeque<Attr>)
    requires rising { AreRising attrs.old.items }
    requires kept { AreRising kept.old.items }
    requires room { vec_len attrs.old + deque_len kept.old + deque_len given.old ≤ vec_capacity attrs.old }
    requires some { 0 < deque_len kept.old + deque_len given.old }
    ensures map { attrs_after (attrs_of attrs.new.items) kept.new.items given.new.items
        ≡ attrs_after (attrs_of attrs.old.items) kept.old.items given.old.items }
    ensures rising { AreRising attrs.new.items }
    ensures kept { AreRising kept.new.items }
    ensures room { vec_len attrs.new + deque_len kept.new + deque_len given.new ≤ vec_capacity attrs.new }
    ensures fewer { deque_len kept.new + deque_len given.new < deque_len kept.old + deque_len given.old }
{
    if keeps_first(kept, given) {
        if let Some(attr) = kept.pop_front() {
            put_text(attrs, attr.code, attr.value);
        }
    } else if let Some(setting) = given.pop_front() {
        set_one(attrs, setting);
    }
}

/// Puts attributes and does settings, the lower codes first: so where the settings come in the order of
/// their codes, each text is put behind all others. It takes no memory.
fn merge(attrs: &mut Vec<Attr>, mut kept: VecDeque<Attr>, mut given: VecDeque<Attr>)
    requires rising { AreRising attrs.old.items }
    requires kept { AreRising kept.items }
    requires room { vec_len attrs.old + deque_len kept + deque_len given ≤ vec_capacity attrs.old }
    ensures map { attrs_of attrs.new.items ≡ attrs_after (attrs_of attrs.old.items) kept.items given.items }
    ensures rising { AreRising attrs.new.items }
{
    while !kept.is_empty() || !given.is_empty() {
        step(attrs, &mut kept, &mut given);
    }
}

/// Whether settings are attributes as they stand: their codes rise, and none removes.
fn are_attributes(settings: &[Attr]) -> bool
    ensures { result ≡ are_attributes 0 settings.now }
{
    let mut lowest = 0;
    for setting in settings {
        let code = u32::from(setting.code);
        if code < lowest || removes(setting) {
            return false;
        }
        lowest = code + 1;
    }
    true
}

/// What settings leave where there was no attribute. They are done in the order of their codes, so that each
/// text is put behind all others.
fn attributes_of(alloc: Global, mut settings: Vec<Attr>) -> Result<AttrMap, AllocError>
    ensures { IfOk result (λ attrs. attrs ≡ set_attrs map.empty settings.items) }
{
    settings.sort_by_key(|setting| setting.code)?;
    let mut attrs = Vec::with_capacity(alloc, settings.len())?;
    set_each(&mut attrs, settings);
    Ok(AttrMap { attrs })
}

impl AttrMap {
    /// A map without an attribute. It takes no memory.
    pub fn new(alloc: Global) -> AttrMap
        ensures { result ≡ map.empty }
    {
        AttrMap {
            attrs: Vec::new(alloc),
        }
    }

    /// The attributes that settings leave where there was none, as [`set_all`](AttrMap::set_all) does them.
    ///
    /// Settings in the rising order of their codes of which none removes are kept as they are: this takes no
    /// memory, and a look at each. Others are sorted, and take a block for as many.
    pub fn from_settings(alloc: Global, settings: Vec<Attr>) -> Result<AttrMap, AllocError>
        ensures { IfOk result (λ attrs. attrs ≡ set_attrs map.empty settings.items) }
    {
        if are_attributes(settings.as_slice()) {
            return Ok(AttrMap { attrs: settings });
        }
        attributes_of(alloc, settings)
    }

    /// The number of attributes. It takes no memory.
    pub fn len(&self) -> usize
        ensures { result ≡ map.len self.now }
    {
        self.attrs.len()
    }

    /// The attributes in the order of their codes. It takes no memory.
    pub fn as_slice(&self) -> &[Attr]
        ensures { texts_by_code result.now ≡ map.entries self.now }
    {
        self.attrs.as_slice()
    }

    /// The text under a code. It takes no memory.
    pub fn get(&self, code: u16) -> Option<&Octets>
        ensures { option_copied result ≡ map.get self.now code }
    {
        match place_of(self.attrs.as_slice(), code) {
            Ok(place) => Some(&self.attrs[place].value),
            Err(_) => None,
        }
    }

    /// Puts a text under a code, in place of what is there. Where there is no memory nothing changes.
    pub fn set(&mut self, code: u16, value: Octets) -> Result<(), AllocError>
        ensures ok { OnOk result (self.new ≡ map.insert self.old code value) }
        ensures err { OnErr result (self.new ≡ self.old) }
    {
        set_text(&mut self.attrs, code, value)
    }

    /// Takes out the text under a code, and answers it. It takes no memory.
    pub fn remove(&mut self, code: u16) -> Option<Octets>
        ensures value { result ≡ map.get self.old code }
        ensures map { self.new ≡ map.remove self.old code }
    {
        take_text(&mut self.attrs, code)
    }

    /// Sets or removes one attribute. Only a code that isn't there takes room.
    fn set_single(&mut self, setting: &Attr) -> Result<(), AllocError>
        ensures ok { OnOk result (self.new ≡ set_attr self.old setting.now) }
        ensures err { OnErr result (self.new ≡ self.old) }
    {
        if removes(setting) {
            let _ = take_text(&mut self.attrs, setting.code);
            return Ok(());
        }
        let value = setting.value.clone()?;
        set_text(&mut self.attrs, setting.code, value)
    }

    /// Sets a few attributes, each in its place.
    fn set_few(&mut self, alloc: Global, settings: &[Attr]) -> Result<(), AllocError>
        ensures ok { OnOk result (self.new ≡ set_attrs self.old settings.now) }
        ensures err { OnErr result (self.new ≡ self.old) }
    {
        let settings = settings.to_vec(alloc)?;
        self.attrs.reserve(settings.len())?;
        set_each(&mut self.attrs, settings);
        Ok(())
    }

    /// Sets many attributes: they are sorted by their codes, and merged with those that are there.
    fn set_many(&mut self, alloc: Global, settings: &[Attr]) -> Result<(), AllocError>
        ensures ok { OnOk result (self.new ≡ set_attrs self.old settings.now) }
        ensures err { OnErr result (self.new ≡ self.old) }
    {
        let mut given = settings.to_vec(alloc)?;
        given.sort_by_key(|setting| setting.code)?;
        let mut attrs = Vec::with_capacity(alloc, self.attrs.len() + given.len())?;
        let kept = mem::replace(&mut self.attrs, Vec::new(alloc));
        merge(&mut attrs, VecDeque::from(kept), VecDeque::from(given));
        self.attrs = attrs;
        Ok(())
    }

    /// Sets attributes one after the other, where the single byte 0x7F removes one. Where there is no
    /// memory nothing changes.
    ///
    /// Up to [`MOST_SET_IN_PLACE`] settings are made in their places, where each may move all attributes behind its
    /// own. More are sorted by their codes, and merged with the attributes in one pass.
    pub fn set_all(&mut self, alloc: Global, settings: &[Attr]) -> Result<(), AllocError>
        ensures ok { OnOk result (self.new ≡ set_attrs self.old settings.now) }
        ensures err { OnErr result (self.new ≡ self.old) }
    {
        match settings {
            [setting] => self.set_single(setting),
            _ if settings.len() <= MOST_SET_IN_PLACE => self.set_few(alloc, settings),
            _ => self.set_many(alloc, settings),
        }
    }
}

impl Clone for AttrMap {
    ghost is_clone = { λ attrs copy. copy ≡ attrs };

    fn clone(&self) -> Result<AttrMap, AllocError> {
        Ok(AttrMap {
            attrs: self.attrs.clone()?,
        })
    }
}
