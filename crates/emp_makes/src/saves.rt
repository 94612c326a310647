//! The files of a market.
ghost use Rattle.std.specs.Prelude.{◌≡◌, ◌++◌, map, string_bytes, IfOk};
ghost use Rattle.emp_command.specs.Deliveries.{stored_of};
ghost use Rattle.emp_command.specs.Requests.{word_of};
ghost use Rattle.gms_print.specs.Lines.{IsPrintableModel};
ghost use Rattle.emp_makes.specs.Makes.{Saves};

use emp_ast::annot::Annot;
use emp_ast::model::Model;
use emp_command::delivery::Stored;
use emp_command::words::Request;
use emp_list::memory::NoMemory;
use gms_print::print::print_model;
use info_print::print::print_info;
use std::alloc::Global;

/// A file of that name with that ending.
fn file(alloc: Global, name: &str, ending: &str, bytes: Vec<u8>) -> Result<Stored, NoMemory>
    ensures { IfOk result (λ s. stored_of s ≡ (name.now ++ ending.now, bytes.items)) }
{
    let mut full = String::from_str(alloc, name)?;
    full.push_str(ending)?;
    Ok(Stored { name: full, bytes })
}

/// The two canonical texts, in files of that name.
fn saved(alloc: Global, name: &str, model: &Model, annot: &Annot) -> Result<Vec<Stored>, NoMemory>
    requires { IsPrintableModel model.now }
    ensures { IfOk result (λ v. Saves model.now annot.now (Some name.now) (map stored_of v.items)) }
{
    let model_text = print_model(alloc, model)?;
    let info_text = print_info(alloc, model, annot)?;
    let mut files = Vec::new(alloc);
    files.push(file(alloc, name, ".gms", model_text)?)?;
    files.push(file(alloc, name, ".info", info_text)?)?;
    Ok(files)
}

/// The two canonical texts in files, where the words name them.
pub fn saves(
    alloc: Global,
    request: &Request,
    model: &Model,
    annot: &Annot,
) -> Result<Vec<Stored>, NoMemory>
    requires { IsPrintableModel model.now }
    ensures { IfOk result (λ v. Saves model.now annot.now (word_of request.now.output) (map stored_of v.items)) }
{
    match request.output {
        Some(name) => saved(alloc, name, model, annot),
        None => Ok(Vec::new(alloc)),
    }
}
