//! A property of templates: the function does nothing, and its contract is the property.

ghost use Rattle.noise_tool.specs.TemplateStarts.{TemplatesStart};

use noise_handshake::laws::tokens_match;

/// The parties of a template's file can be made: it is of the template's pattern, and nothing is wrong with either
/// setup.
pub fn templates_start()
    ensures { TemplatesStart }
{
    tokens_match();
}
