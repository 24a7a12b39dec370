/// Calls a function that takes a template as its type, at the template of a kind.
macro_rules! with_template {
    ($kind:expr, $function:ident($($argument:expr),*)) => {
        match $kind {
            Kind::Init => $function::<templates_unary::Init>($($argument),*),
            Kind::End => $function::<templates_unary::End>($($argument),*),
            Kind::Participation => $function::<templates_unary::Participation>($($argument),*),
            Kind::AtMostOne => $function::<templates_unary::AtMostOne>($($argument),*),
            Kind::ChainSuccession => $function::<templates_pair::ChainSuccession>($($argument),*),
            Kind::AlternateSuccession => $function::<templates_pair::AlternateSuccession>($($argument),*),
            Kind::Succession => $function::<templates_pair::Succession>($($argument),*),
            Kind::CoExistence => $function::<templates_pair::CoExistence>($($argument),*),
            Kind::ChainResponse => $function::<templates_pair::ChainResponse>($($argument),*),
            Kind::AlternateResponse => $function::<templates_pair::AlternateResponse>($($argument),*),
            Kind::Response => $function::<templates_pair::Response>($($argument),*),
            Kind::ChainPrecedence => $function::<templates_pair::ChainPrecedence>($($argument),*),
            Kind::AlternatePrecedence => $function::<templates_pair::AlternatePrecedence>($($argument),*),
            Kind::Precedence => $function::<templates_pair::Precedence>($($argument),*),
            Kind::RespondedExistence => $function::<templates_pair::RespondedExistence>($($argument),*),
            Kind::NotCoExistence => $function::<templates_neg::NotCoExistence>($($argument),*),
            Kind::NotSuccession => $function::<templates_neg::NotSuccession>($($argument),*),
            Kind::NotChainSuccession => $function::<templates_neg::NotChainSuccession>($($argument),*),
            Kind::Exactly { n } => crate::dispatch::with_number!(n, Exactly, $function($($argument),*)),
            Kind::AtLeast { n } => crate::dispatch::with_number!(n, AtLeast, $function($($argument),*)),
            Kind::AtMost { n } => crate::dispatch::with_number!(n, AtMost, $function($($argument),*)),
            Kind::NotRespondedExistence => $function::<templates_neg::NotRespondedExistence>($($argument),*),
            Kind::NotResponse => $function::<templates_neg::NotResponse>($($argument),*),
            Kind::NotPrecedence => $function::<templates_neg::NotPrecedence>($($argument),*),
            Kind::NotChainResponse => $function::<templates_neg::NotChainResponse>($($argument),*),
            Kind::NotChainPrecedence => $function::<templates_neg::NotChainPrecedence>($($argument),*),
        }
    };
}

/// The same at a counted template, by its number.
macro_rules! with_number {
    ($n:expr, $family:ident, $function:ident($($argument:expr),*)) => {
        match $n {
            1 => $function::<templates_unary::$family<1>>($($argument),*),
            2 => $function::<templates_unary::$family<2>>($($argument),*),
            3 => $function::<templates_unary::$family<3>>($($argument),*),
            4 => $function::<templates_unary::$family<4>>($($argument),*),
            5 => $function::<templates_unary::$family<5>>($($argument),*),
            6 => $function::<templates_unary::$family<6>>($($argument),*),
            7 => $function::<templates_unary::$family<7>>($($argument),*),
            8 => $function::<templates_unary::$family<8>>($($argument),*),
            _ => $function::<templates_unary::$family<9>>($($argument),*),
        }
    };
}

pub(crate) use with_number;
pub(crate) use with_template;
