//! `explain`: what a refusal means.
ghost use Rattle.std.specs.Prelude.{◌≡◌, ◌++◌, flat_map, string_bytes, IfOk, IfSome, OnOk};
ghost use Rattle.clap.specs.Matches.{found_of};
ghost use Rattle.mc_actions.specs.Explained.{AnswersExplained, Explains, GivesExplained, IsNumbered, said_of, takes, text_of};

use clap::ArgMatches;
use mc_cli::{Explanation, all_explanations};
use mc_options::Refusal;
use mc_output::write_text;
use std::alloc::{AllocError, Global};
use std::io::Write;

/// What is to be explained.
#[derive(Clone, Copy, Debug)]
pub enum Explained<'p> {
    /// All refusals, a line each.
    All,
    /// The refusal of a number.
    Number(u8),
    /// The refusals of a name, in capital or small letters.
    Named(&'p str),
}

/// The number that a text says, which may be written as it is printed: `33`, `E33` or `e33`.
fn number_of(text: &str) -> Option<u8>
    ensures { IfSome result (λ n. IsNumbered n text.now) }
{
    let digits = match (text.strip_prefix('E'), text.strip_prefix('e')) {
        (Some(digits), _) | (None, Some(digits)) => digits,
        (None, None) => text,
    };
    digits.parse().ok()
}

impl<'p> Explained<'p> {
    /// What the words ask for: the refusal of a number, or those of a name; without either all.
    pub fn read(arguments: &ArgMatches<'p>) -> Explained<'p>
        ensures { GivesExplained (found_of arguments.now) result }
    {
        let Some(text) = arguments.get_str("NUMBER") else {
            return Explained::All;
        };
        match number_of(text) {
            Some(number) => Explained::Number(number),
            None => Explained::Named(text),
        }
    }

    /// Whether a refusal is one of these.
    fn takes(&self, explanation: &Explanation) -> bool
        ensures { result ≡ takes self.now explanation.now }
    {
        match self {
            Explained::All => true,
            Explained::Number(number) => explanation.number == *number,
            Explained::Named(name) => explanation.name.eq_ignore_ascii_case(name),
        }
    }

    /// The text of one.
    ///
    /// # Errors
    ///
    /// Where an allocation failed.
    fn text(&self, alloc: Global, explanation: &Explanation) -> Result<String, AllocError>
        ensures { IfOk result (λ text. string_bytes text ≡ text_of self.now explanation.now) }
    {
        let (number, name, status) = (explanation.number, explanation.name, explanation.status);
        let mut text = format!(in alloc; "E{number} {name}, exit status {status}\n")?;
        if let Explained::Number(_) | Explained::Named(_) = self {
            let (when, remedy) = (explanation.when, explanation.remedy);
            text.push_str(format!(in alloc; "{when}\n{remedy}\n")?.as_str())?;
        }
        Ok(text)
    }

    /// Adds the text of a refusal, if it is one of these.
    ///
    /// # Errors
    ///
    /// Where an allocation failed.
    fn add(
        &self,
        alloc: Global,
        explanation: &Explanation,
        text: &mut String,
    ) -> Result<(), AllocError>
        ensures { OnOk result (string_bytes text.new ≡ string_bytes text.old
            ++ said_of self.now explanation.now) }
    {
        if !self.takes(explanation) {
            return Ok(());
        }
        text.push_str(self.text(alloc, explanation)?.as_str())?;
        Ok(())
    }

    /// Adds the texts of those among some refusals.
    ///
    /// # Errors
    ///
    /// Where an allocation failed.
    fn add_all(
        &self,
        alloc: Global,
        explanations: &[Explanation],
        text: &mut String,
    ) -> Result<(), AllocError>
        ensures { OnOk result (string_bytes text.new ≡ string_bytes text.old
            ++ flat_map (said_of self.now) explanations.now) }
    {
        for explanation in explanations {
            self.add(alloc, explanation, text)?;
        }
        Ok(())
    }

    /// The text of all of them.
    ///
    /// # Errors
    ///
    /// Where an allocation failed.
    fn whole_text(&self, alloc: Global) -> Result<String, AllocError>
        ensures { IfOk result (λ text. Explains self.now (string_bytes text)) }
    {
        let mut text = String::new(alloc);
        for explanations in all_explanations() {
            self.add_all(alloc, explanations, &mut text)?;
        }
        Ok(text)
    }

    /// Prints what these refusals mean: of each its number, its name and the status of a command that ends with it; where not all are
    /// asked for also when it comes, and what to do.
    /// Promised: the explanations that are asked for, all of them, in order (`AnswersExplained`, `Explains`).
    ///
    /// # Errors
    ///
    /// `Unexplained` where there is none; `Memory`; `Write`.
    pub fn answer<O: Write>(&self, alloc: Global, out: &mut O) -> Result<(), Refusal>
        ensures { AnswersExplained self.now (O.contents out.old) (O.contents out.new) result }
    {
        let text = self.whole_text(alloc)?;
        if text.as_str().is_empty() {
            return Err(Refusal::Unexplained);
        }
        write_text(out, text.as_str().as_bytes())?;
        Ok(())
    }
}
