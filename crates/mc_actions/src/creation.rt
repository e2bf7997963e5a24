//! What `create` is given, and the image that is made of it.
ghost use Rattle.std.specs.Prelude.{◌≡◌, IfErr, IfOk};
ghost use Rattle.clap.specs.Matches.{found_of};
ghost use Rattle.mc_imgtool.specs.Created.{created};
ghost use Rattle.mc_imgtool.specs.Engines.{Answers};
ghost use Rattle.mc_actions.specs.Images.{GivesCreation, LacksCreation};
ghost use Rattle.mc_options.specs.Arguments.{IsReady};

use clap::ArgMatches;
use mc_imgtool::{CreateOptions, ToolError};
use mc_options::{Refusal, create_options, required};
use std::alloc::Global;
use std::io::{Read, Write};

/// What `create` is given: options, and the paths of two files.
#[derive(Debug, Drop)]
pub struct Creation<'a> {
    options: CreateOptions,
    infile: &'a str,
    outfile: &'a str,
    /// Whether OUTFILE stays as it was where the image is refused, or cannot be written.
    keep: bool,
}

impl<'a> Creation<'a> {
    /// What the arguments give. No file is touched.
    ///
    /// # Errors
    ///
    /// What `create_options` refuses, and `Argument` where a path is missing.
    pub fn read(arguments: &ArgMatches<'a>) -> Result<Creation<'a>, Refusal>
        ensures given { IfOk result (GivesCreation (found_of arguments.now)) }
        ensures ready { IfOk result (λ c. IsReady c.options) }
        ensures refused { IfErr result (LacksCreation (found_of arguments.now)) }
    {
        Ok(Creation {
            options: create_options(arguments)?,
            infile: required(arguments, "INFILE")?,
            outfile: required(arguments, "OUTFILE")?,
            keep: arguments.get_flag("keep"),
        })
    }

    /// The path of the payload.
    pub fn infile(&self) -> &'a str
        ensures { result.now ≡ self.now.infile.now }
    {
        self.infile
    }

    /// The path of the image.
    pub fn outfile(&self) -> &'a str
        ensures { result.now ≡ self.now.outfile.now }
    {
        self.outfile
    }

    /// Whether OUTFILE stays as it was where the image is refused, or cannot be written.
    pub fn keeps(&self) -> bool
        ensures { result ≡ self.now.keep }
    {
        self.keep
    }

    /// Makes the image of these options and no others.
    ///
    /// # Errors
    ///
    /// What the image tool refuses.
    pub fn make<R: Read, W: Write>(
        &self,
        alloc: Global,
        input: &mut R,
        output: &mut W,
    ) -> Result<(), ToolError>
        requires { IsReady self.now.options }
        ensures { Answers (created self.now.options) (R.remaining input.old) (W.contents output.old)
            (W.contents output.new) result }
    {
        mc_imgtool::create(alloc, &self.options, input, output)
    }
}
