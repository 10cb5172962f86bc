//! The attributes of an entry, as they are lent (sections 2.2, 7.5.2 and 7.5.3).
ghost use Rattle.std.specs.Prelude.{◌≡◌, ◌∷◌, ◌<◌, ◌^◌, ◌==◌, ℕ, None, length, map, option_map, is_some, IfSome, IsFalse};
ghost use Rattle.std.specs.Iterator.{YieldsFirstBy, item_count};
ghost use Rattle.std.specs.List.{list_any};
ghost use Rattle.dw_leb.specs.View.{uleb_of};
ghost use Rattle.dw_form.specs.Lent.{attribute_of};
ghost use Rattle.dw_form.specs.Head.{head};
ghost use Rattle.dw_form.specs.Pieces.{form_in, HasSpelling, spelling};
ghost use Rattle.dw_abbrev.specs.PairView.{pair_of};
ghost use Rattle.dw_tree.specs.RowHeads.{values_at};
ghost use Rattle.dw_tree.specs.Lent.{lent_attribute, lent_attributes};
ghost use Rattle.dw_tree.specs.Lent.{AreLent, attr_of, begins_bare, begins_with_number, first_named, number_of};
ghost use Rattle.dw_tree.specs.Names.{first_name, others_of};

use crate::write::{behind, whole_end};
use dw_abbrev::Pair;
use dw_form::{AttrValue, Ctx, Value, lend_bare, lend_head, lend_number, size_by_head};
use dw_leb::Uleb;
use std::marker::Model;

/// An attribute of an entry (section 2.2). Its value borrows the unit.
#[derive(Clone, Copy, Debug)]
pub struct AttrRef<'a> {
    /// The name, `DW_AT_..`.
    pub name: u64,
    /// The form in effect, `DW_FORM_..`: of an indirect value the one that it names itself, of any
    /// other the one that the declaration gives (section 7.5.3).
    pub form: u64,
    /// Where the value begins, counted from the unit's first byte, that of its initial length. A
    /// value of no bytes begins where the next one does.
    pub offset: u64,
    /// The value.
    pub attr: AttrValue<'a>,
}

/// An attribute of an entry whose value is a number of a fixed size of at most 8 bytes (section 7.5.5). Its fields are
/// those of an `AttrRef`, whose value is the number; it borrows nothing.
#[derive(Clone, Copy, Debug)]
pub struct NumberRef {
    /// The name, `DW_AT_..`.
    pub name: u64,
    /// The form that the declaration gives, `DW_FORM_..`.
    pub form: u64,
    /// Where the value begins, counted from the unit's first byte.
    pub offset: u64,
    /// The value.
    pub number: u64,
}

impl NumberRef {
    /// The same attribute, as one of any value.
    #[inline(always)]
    pub fn attribute(&self) -> AttrRef<'static>
        ensures { attr_of result ≡ number_of self.now }
    {
        AttrRef {
            name: self.name,
            form: self.form,
            offset: self.offset,
            attr: AttrValue {
                via: None,
                value: Value::Num(self.number),
            },
        }
    }
}

/// The attributes of an entry that are left, in the order in which its declaration names them, which
/// is that of their values (section 7.5.2).
#[derive(Debug, Drop)]
pub struct Attrs<'a> {
    ctx: Ctx,
    pairs: &'a [Pair],
    /// The heads of their values are at the front.
    heads: &'a [u8],
    pool: &'a [u8],
    /// Where the first value begins.
    at: u64,
}

impl<'a> Model for Attrs<'a> {
    ghost use Rattle.std.specs.Prelude.{List, map};
    ghost use Rattle.dw_abbrev.specs.PairView.{pair_of};
    ghost use Rattle.dw_tree.specs.RowHeads.{values_at};
    ghost use Rattle.dw_tree.specs.Lent.{LentAttribute, lent_attributes};
    ghost use Rattle.dw_tree.specs.Lent.{AreLent};

    ghost Value = { List LentAttribute };

    ghost view = { λ a.
        lent_attributes a.ctx a.at (map pair_of a.pairs.now)
        (values_at a.ctx (map pair_of a.pairs.now) a.heads.now a.pool.now) };

    ghost invariant = { λ a. AreLent a.ctx a.at (map pair_of a.pairs.now) a.heads.now a.pool.now };
}

impl<'a> Attrs<'a> {
    /// The values whose heads are at the front of `heads`, one for each pair, of which the first begins
    /// at `at`.
    pub(crate) fn of(
        ctx: Ctx,
        pairs: &'a [Pair],
        heads: &'a [u8],
        pool: &'a [u8],
        at: u64,
    ) -> Attrs<'a>
        requires { AreLent ctx at (map pair_of pairs.now) heads.now pool.now }
        ensures { result
            ≡ lent_attributes ctx at (map pair_of pairs.now)
            (values_at ctx (map pair_of pairs.now) heads.now pool.now) }
    {
        Attrs {
            ctx,
            pairs,
            heads,
            pool,
            at,
        }
    }

    /// The next attribute, where its value is a number of a fixed size of at most 8 bytes (and isn't indirect): as
    /// `next` gives it, and in less memory. None where it is any other, or none is left: nothing was taken, and `next`
    /// is to be asked.
    #[inline(always)]
    pub fn next_number(&mut self) -> Option<NumberRef>
        ensures some { IfSome result (λ n. self.old ≡ number_of n ∷ self.new) }
        ensures none { result ≡ None → self.new ≡ self.old }
        ensures only { is_some result ≡ begins_with_number self.old }
    {
        let (pair, pairs) = self.pairs.split_first()?;
        let (number, width) = lend_number(self.ctx, pair.form.value, self.heads)?;
        let attr = AttrValue {
            via: None,
            value: Value::Num(number),
        };
        let size = spelled_size(self.ctx, pair.form.value, &attr, width);
        let first = NumberRef {
            name: pair.name.value,
            form: pair.form.value,
            offset: self.at,
            number,
        };
        self.pairs = pairs;
        self.heads = behind(self.heads, width);
        self.at += size;
        Some(first)
    }

    /// The next attribute, where its value has no bytes (and isn't indirect): that the attribute is there, or the
    /// constant of its declaration (section 7.5.5, `flag_present` and `implicit_const`). As `next` gives it, and at
    /// less cost. None where it is any other, or none is left: nothing was taken, and `next` is to be asked.
    #[inline(always)]
    pub fn next_bare(&mut self) -> Option<AttrRef<'static>>
        ensures some { IfSome result (λ a. self.old ≡ attr_of a ∷ self.new) }
        ensures none { result ≡ None → self.new ≡ self.old }
        ensures only { is_some result ≡ begins_bare self.old }
    {
        let (pair, pairs) = self.pairs.split_first()?;
        let value = lend_bare(self.ctx, pair.form.value, pair.constant)?;
        let attr = AttrValue { via: None, value };
        let size = spelled_size(self.ctx, pair.form.value, &attr, 0);
        let first = attr_at(pair, &attr, self.at);
        self.pairs = pairs;
        self.at += size;
        Some(first)
    }

    /// The name of the next attribute.
    #[inline(always)]
    pub(crate) fn name(&self) -> Option<u64>
        ensures { result ≡ first_name self.now }
    {
        let (pair, _) = self.pairs.split_first()?;
        Some(pair.name.value)
    }

    /// Whether the declaration names this one among those that are left. No value is looked at.
    #[inline(always)]
    pub(crate) fn has_name(&self, name: u64) -> bool
        ensures { IsFalse result → first_named name self.now ≡ None }
    {
        any_named(self.pairs, name)
    }

    /// Steps over the next attribute, and doesn't decode its value where only the value's end has to be found.
    #[inline(always)]
    pub(crate) fn step_over(&mut self)
        ensures { self.new ≡ others_of self.old }
    {
        if let Some((pair, pairs)) = self.pairs.split_first() {
            match whole_end(self.ctx, pair.form.value, self.heads, 0) {
                Some(size) => {
                    self.pairs = pairs;
                    self.heads = behind(self.heads, size);
                    self.at += size as u64;
                }
                None => self.step_over_content(),
            }
        }
    }

    /// The same, whatever the value.
    fn step_over_content(&mut self)
        ensures { self.new ≡ others_of self.old }
    {
        if let Some((pair, pairs)) = self.pairs.split_first() {
            match lend_head(
                self.ctx,
                pair.form.value,
                pair.constant,
                self.heads,
                self.pool,
            ) {
                Some((attr, head_size)) => {
                    self.pairs = pairs;
                    self.heads = behind(self.heads, head_size);
                    self.at += spelled_size(self.ctx, pair.form.value, &attr, head_size);
                }
                None => unreachable!(),
            }
        }
    }
}

/// Whether one of these pairs has this name.
#[inline(always)]
fn any_named(pairs: &[Pair], name: u64) -> bool
    ensures { result ≡ list_any (λ p. p.name.value == name) pairs.now }
{
    pairs.iter().any(|pair| pair.name.value == name)
}

impl<'a> Iterator for Attrs<'a> {
    type Item = AttrRef<'a>;

    ghost next_gives = { YieldsFirstBy attr_of (λ s. s) };

    ghost remaining = { item_count (λ s. s) };

    // A caller that is at hand takes the attribute apart, which is too large to be moved around.
    #[inline(always)]
    fn next(&mut self) -> Option<AttrRef<'a>> {
        // Nearly every value is a number or has no bytes: these go into the attribute at once.
        if let Some(number) = self.next_number() {
            return Some(number.attribute());
        }
        if let Some(bare) = self.next_bare() {
            return Some(bare);
        }
        let (pair, pairs) = self.pairs.split_first()?;
        match lend_head(
            self.ctx,
            pair.form.value,
            pair.constant,
            self.heads,
            self.pool,
        ) {
            Some((attr, own)) => {
                let size = spelled_size(self.ctx, pair.form.value, &attr, own);
                let first = attr_at(pair, &attr, self.at);
                self.pairs = pairs;
                self.heads = behind(self.heads, own);
                self.at += size;
                Some(first)
            }
            None => unreachable!(),
        }
    }
}

/// The attribute of a pair, with its value that begins at `at`.
#[inline(always)]
fn attr_at<'a>(pair: &Pair, attr: &AttrValue<'a>, at: u64) -> AttrRef<'a>
    ensures { attr_of result ≡ lent_attribute at (pair_of pair.now) (attribute_of attr.now) }
{
    AttrRef {
        name: pair.name.value,
        form: form_of(pair.form, attr.via),
        offset: at,
        attr: *attr,
    }
}

/// How many bytes the spelling of a value has, whose head under this form has `own` bytes.
#[inline(always)]
fn spelled_size(_ctx: Ctx, _form: u64, value: &AttrValue<'_>, own: usize) -> u64
    requires spelled { HasSpelling _ctx _form (attribute_of value.now) }
    requires head { (start : ℕ) × (own ≡ length (head _ctx _form start (attribute_of value.now))) }
    requires small { own < 2 ^ 63 }
    ensures { result ≡ length (spelling _ctx _form (attribute_of value.now)) }
{
    size_by_head(value, own)
}

/// The form in effect where the declaration gives one and the value may name another.
#[inline(always)]
pub(crate) fn form_of(form: Uleb, via: Option<Uleb>) -> u64
    ensures { result ≡ form_in form.value (option_map uleb_of via) }
{
    match via {
        Some(via) => via.value,
        None => form.value,
    }
}
