//! The names of the roles.

ghost use Rattle.std.specs.Prelude.{◌≡◌};
ghost use Rattle.std.specs.List.{find};
ghost use Rattle.std.specs.Str.{bytes_eq};
ghost use Rattle.hs_table_text.specs.Roles.{role_name, role_named};

use hs_table::Role;

/// All roles.
const ROLES: [Role; 18] = [
    Role::NewHandle,
    Role::DisposeHandle,
    Role::GetSize,
    Role::SetSize,
    Role::Lock,
    Role::Unlock,
    Role::Purge,
    Role::NoPurge,
    Role::GetState,
    Role::SetState,
    Role::Empty,
    Role::Realloc,
    Role::NewPtr,
    Role::DisposePtr,
    Role::BlockMove,
    Role::Getchar,
    Role::Putchar,
    Role::Plain,
];

/// The name of a role.
pub(crate) fn role_name(role: Role) -> &'static str
    ensures { result.now ≡ role_name role }
{
    match role {
        Role::NewHandle => "new_handle",
        Role::DisposeHandle => "dispose_handle",
        Role::GetSize => "get_size",
        Role::SetSize => "set_size",
        Role::Lock => "lock",
        Role::Unlock => "unlock",
        Role::Purge => "purge",
        Role::NoPurge => "no_purge",
        Role::GetState => "get_state",
        Role::SetState => "set_state",
        Role::Empty => "empty",
        Role::Realloc => "realloc",
        Role::NewPtr => "new_ptr",
        Role::DisposePtr => "dispose_ptr",
        Role::BlockMove => "block_move",
        Role::Getchar => "getchar",
        Role::Putchar => "putchar",
        Role::Plain => "plain",
    }
}

/// The role of that name among these.
fn role_among(roles: &[Role], name: &str) -> Option<Role>
    ensures { result ≡ find (λ role. bytes_eq (role_name role) name.now) roles.now }
{
    'roles: for role in roles {
        if role_name(*role) == name {
            return Some(*role);
        }
    }
    None
}

/// The role of that name.
pub(crate) fn role_named(name: &str) -> Option<Role>
    ensures { result ≡ role_named name.now }
{
    role_among(&ROLES, name)
}
