mod catalogues;
mod tables;
