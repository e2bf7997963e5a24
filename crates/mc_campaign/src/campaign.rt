//! Campaigns of power cuts.
ghost use Rattle.std.specs.Prelude.{◌≡◌, ◌↔◌, ℕ, List, ◌+◌, ◌<◌, ◌≤◌, ◌^◌, [], ◌∷◌, ◌++◌, length, decimal, true, Some, Ok, IfOk, OnOk, OnErr, MatchOption};
ghost use Rattle.mc_campaign.specs.Campaigns.{IsInOrder, Precedes, in_round};
ghost use Rattle.mc_explore.specs.Rounds.{number_of};
ghost use Rattle.mc_campaign.specs.Texts.{campaign_text, cut_text, FitsCut, IsAdded, IsCampaign, IsCut, ReadsCampaign};
ghost use Rattle.mc_campaign.specs.facts.Cuts.{last_round};
ghost use Rattle.mc_campaign.specs.facts.InRounds.{round_at};
ghost use Rattle.mc_campaign.specs.inner.InRounds.{campaign_of};

use mc_explore::{Cuts, Line, MOST_CUTS, MOST_LINE, Round, Schedule};
use std::fmt;
use std::marker::Model;
use thiserror::Error;

/// A text that is no campaign's.
#[derive(Clone, Copy, Debug, PartialEq, Eq, Error)]
#[error("E62 CampaignSyntax")]
pub struct CampaignError;

/// A power cut: its round, and after how many operations of its boot the power is lost. A contract sees the pair of the round's
/// number and this one.
#[derive(Clone, Copy, Debug, PartialEq, Eq)]
pub struct Cut {
    pub round: Round,
    pub number: u32,
}

impl Model for Cut {
    ghost use Rattle.std.specs.Prelude.{ℕ};
    ghost use Rattle.mc_explore.specs.Rounds.{number_of};
    ghost use Rattle.mc_campaign.specs.facts.Cuts.{round_again, round_numbered};

    ghost Value = { ℕ × ℕ };

    ghost view = { λ cut. (number_of cut.round, cut.number) };

    ghost inverse = { λ pair. record { round = round_numbered pair.0; number = pair.1 } };

    ghost inverse_ok = { λ cut _ i. record { round = round_again cut.round i; number = cut.number } };
}

/// At most 16 power cuts in two rounds, none of the first after one of the second. A round is power-on with its cuts and one whole
/// boot; the second starts from the flash that the first leaves. It takes no memory.
#[derive(Clone, Copy, Debug)]
pub struct Campaign {
    cuts: [Cut; MOST_CUTS],
    len: usize,
}

impl Model for Campaign {
    ghost use Rattle.std.specs.Prelude.{◌≡◌, ℕ, ◌≤◌, List, ◌++◌, length, take, drop};
    ghost use Rattle.mc_campaign.specs.Campaigns.{IsInOrder};
    ghost use Rattle.mc_campaign.specs.facts.Room.{blanks_after, len_again, room_again};

    ghost Value = { List (ℕ × ℕ) };

    ghost view = { λ c. take c.len c.cuts };

    ghost invariant = { λ c. (c.len ≤ 16) × (length c.cuts ≡ 16)
        × (drop c.len c.cuts ≡ blanks_after c.len) × IsInOrder (take c.len c.cuts) };

    ghost inverse = { λ l. record { cuts = l ++ blanks_after (length l); len = length l } };

    ghost inverse_ok = { λ c h i. record { cuts = room_again c.cuts c.len h.1 h.0 h.2 i; len = len_again c.cuts c.len h.1 h.0 i } };
}

// The round whose number a text is.
#[tactic(auto, using(std::proofs::lemmas::Fmt::decimal_digit))]
fn round_of(text: &str) -> Option<Round>
    ensures { MatchOption result ((n : ℕ) → 1 ≤ n → n ≤ 2 → text.now ≡ decimal n → ⊥)
        (λ round. text.now ≡ decimal (number_of round)) }
{
    match text {
        "1" => Some(Round::First),
        "2" => Some(Round::Second),
        _ => None,
    }
}

// The number that a text writes, without leading zeros.
fn number_of(text: &str) -> Option<u32>
    ensures { MatchOption result ((n : ℕ) → n < 2 ^ 32 → text.now ≡ decimal n → ⊥)
        (λ n. text.now ≡ decimal n) }
{
    let number = text.parse().ok()?;
    let mut written = Line::new();
    written.put_number(number);
    if written.as_str() == text {
        Some(number)
    } else {
        None
    }
}

// The cut that a text says: its round, a point and its number.
fn cut_of(text: &str) -> Option<Cut>
    ensures { MatchOption result ((cut : ℕ × ℕ) → IsCut cut → text.now ≡ cut_text cut → ⊥)
        (λ cut. (text.now ≡ cut_text cut) × IsCut cut) }
{
    let (round, number) = text.split_once('.')?;
    let round = round_of(round)?;
    let number = number_of(number)?;
    Some(Cut { round, number })
}

// The round of the cut of that number, where so many lie in the first.
fn round_at(in_first: u32, index: usize) -> Round
    ensures { number_of result ≡ round_at in_first index }
{
    if index < in_first as usize {
        Round::First
    } else {
        Round::Second
    }
}

impl Campaign {
    /// The campaign that a text says: `-` for no cut, else 1 to 16 cuts with commas between them. A cut is written as its
    /// round, 1 or 2, a point and its number, below 2^32 and without leading zeros: `1.0,2.5`. No cut of the first round
    /// stands after one of the second. It takes no memory.
    /// Promised, also of `CampaignCursor::read` and `fmt`: campaigns and their cursors read exactly, and print (`exact`, `only`, `at_most`,
    /// `output`).
    ///
    /// # Errors
    ///
    /// `CampaignError` for every other text.
    pub fn read(text: &str) -> Result<Campaign, CampaignError>
        ensures exact { ReadsCampaign text.now result }
        // The text of each campaign is read as that campaign.
        ensures only { (c : List (ℕ × ℕ)) → IsCampaign c → text.now ≡ campaign_text c
            → result ≡ Ok c }
        ensures valid { IfOk result IsCampaign }
    {
        let mut campaign = Campaign::new();
        if text == "-" {
            return Ok(campaign);
        }
        let mut rest = text;
        'cuts: while let Some((first, after)) = rest.split_once(',') {
            campaign.add(first)?;
            rest = after;
        }
        campaign.add(rest)?;
        Ok(campaign)
    }

    // Adds the cut that a text writes, where there is room for one and none of a later round stands before it.
    fn add(&mut self, text: &str) -> Result<(), CampaignError>
        ensures added { OnOk result (IsAdded self.old text.now self.new) }
        ensures refused { OnErr result ((cut : ℕ × ℕ) → FitsCut self.old cut
            → text.now ≡ cut_text cut → ⊥) }
    {
        let Some(cut) = cut_of(text) else {
            return Err(CampaignError);
        };
        if self.len == MOST_CUTS {
            return Err(CampaignError);
        }
        if cut.round.number() < self.last_round().number() {
            return Err(CampaignError);
        }
        self.push(cut);
        Ok(())
    }

    // The round of its last cut, and the first where it has none.
    fn last_round(&self) -> Round
        ensures { number_of result ≡ last_round 1 self.now }
    {
        match self.cuts().split_last() {
            Some((cut, _)) => cut.round,
            None => Round::First,
        }
    }

    /// The campaign of no cut.
    pub fn new() -> Campaign
        ensures { result ≡ [] }
    {
        let none = Cut {
            round: Round::First,
            number: 0,
        };
        Campaign {
            cuts: [none; MOST_CUTS],
            len: 0,
        }
    }

    // Adds a cut at the end.
    pub(crate) fn push(&mut self, cut: Cut)
        requires room { length self.old < 16 }
        requires order { IsInOrder (self.old ++ cut ∷ []) }
        ensures { self.new ≡ self.old ++ cut ∷ [] }
    {
        self.cuts[self.len] = cut;
        self.len += 1;
    }

    /// The campaign of the cuts along a path.
    pub(crate) fn of(cuts: &Cuts) -> Campaign
        ensures { result ≡ campaign_of cuts.now }
    {
        let mut campaign = Campaign::new();
        for &number in cuts.numbers.cuts() {
            let round = round_at(cuts.in_first, campaign.len());
            campaign.push(Cut { round, number });
        }
        campaign
    }

    /// How many cuts it has, in both rounds.
    pub fn len(&self) -> usize
        ensures value { result ≡ length self.now }
        ensures at_most { result ≤ 16 }
    {
        self.len
    }

    /// The cuts, in their order.
    pub fn cuts(&self) -> &[Cut]
        ensures value { result.now ≡ self.now }
        ensures at_most { length result.now ≤ 16 }
        ensures order { IsInOrder result.now }
    {
        &self.cuts[..self.len]
    }

    /// Whether it comes before another in the order of rows: a proper prefix does, else the first cut that differs decides, by its
    /// round and then by its number.
    pub fn is_before(&self, other: &Campaign) -> bool
        ensures { (result ≡ true) ↔ Precedes self.now other.now }
    {
        come_before(self.cuts(), other.cuts())
    }

    /// The cuts of a round, in their order.
    pub fn schedule(&self, round: Round) -> Schedule
        ensures { result ≡ in_round (number_of round) self.now }
    {
        let mut schedule = Schedule::new();
        for cut in self.cuts() {
            if cut.round == round {
                schedule.push(cut.number);
            }
        }
        schedule
    }
}

// Whether some cuts come before others: a proper prefix does, else the first cut that differs decides, by its round and then by its
// number.
fn come_before(cuts: &[Cut], others: &[Cut]) -> bool
    ensures { (result ≡ true) ↔ Precedes cuts.now others.now }
{
    let Some((other, others)) = others.split_first() else {
        return false;
    };
    let Some((cut, cuts)) = cuts.split_first() else {
        return true;
    };
    match (cut.round, other.round) {
        (Round::First, Round::Second) => true,
        (Round::Second, Round::First) => false,
        _ if cut.number == other.number => come_before(cuts, others),
        _ => cut.number < other.number,
    }
}

// Adds a cut to a line: its round, a point and its number.
#[tactic(auto, using(std::proofs::lemmas::Fmt::decimal_digit, std::proofs::lemmas::Grind::common_steps))]
fn put_cut(line: &mut Line, cut: Cut)
    requires { length line.old + 12 ≤ MOST_LINE }
    ensures text { line.new ≡ line.old ++ cut_text cut }
    ensures length { length line.new ≤ length line.old + 12 }
{
    line.put_number(u32::from(cut.round.number()));
    line.put(".");
    line.put_number(cut.number);
}

impl Campaign {
    /// Adds its text to a line: at most 208 bytes.
    pub(crate) fn put_into(&self, line: &mut Line)
        requires { length line.old + 208 ≤ MOST_LINE }
        ensures text { line.new ≡ line.old ++ campaign_text self.now }
        ensures length { length line.new ≤ length line.old + 208 }
    {
        let Some((first, rest)) = self.cuts().split_first() else {
            line.put("-");
            return;
        };
        put_cut(line, *first);
        for cut in rest {
            line.put(",");
            put_cut(line, *cut);
        }
    }
}

impl fmt::Display for Campaign {
    ghost output = { λ c. Some (campaign_text c) };

    fn fmt<W: fmt::Write>(&self, f: &mut fmt::Formatter<W>) -> fmt::Result {
        let mut line = Line::new();
        self.put_into(&mut line);
        f.write_str(line.as_str())
    }
}
